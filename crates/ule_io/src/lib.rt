//! Where a program's bytes come from and go to: a source to read, a sink to write, in memory and
//! over the standard streams, and the two calls that read all and write all.
#![tactic(auto)]

mod mem;
mod reading;
mod standard;
mod writing;

ghost use Rattle.std.specs.Prelude.{◌≡◌, IfOk, OnOk, OnErr};

pub use mem::{MemSink, MemSource};
pub use reading::{Bytes, ReadAllFault, read_all};
pub use standard::{StdSink, StdSource};
use std::alloc::AllocError;
pub use writing::{WriteFault, write_all};

/// A read, a write or a flush failed. The count of faults of the stream says that it did.
#[derive(Clone, Copy, Debug, PartialEq, Eq)]
pub struct Failed;

/// Memory ran out.
#[derive(Clone, Copy, Debug, PartialEq, Eq)]
pub struct Memory;

impl From<AllocError> for Memory {
    fn from(_: AllocError) -> Memory {
        Memory
    }
}

/// Where bytes come from. It may tell which bytes are left, and counts its faults and the reads that
/// met its end.
pub trait Source {
    ghost use Rattle.ule_io.specs.Source.{SourceState, Reads, ReadFails};

    /// What the source tells: the bytes that are left, where it tells them; and how many of its reads
    /// failed, and how many met the end, counts that stand still at 2^64 - 1.
    ghost state: { Self → SourceState };

    /// Reads some bytes into the front of `buf` and says how many, 0..=`buf.len()`. 0 bytes for a
    /// nonempty `buf` mean the end of the input. A read that fails takes no byte from what is left.
    fn read(&mut self, buf: &mut [u8]) -> Result<usize, Failed>
        ensures ok { IfOk result (Reads (state self.old) (state self.new) buf.new) }
        ensures failed { OnErr result (ReadFails (state self.old) (state self.new)) };
}

/// Where bytes go. It may tell which bytes it has taken, counts its faults, its empty takes and its
/// flushes, and knows whether all that it took was flushed.
pub trait Sink {
    ghost use Rattle.ule_io.specs.Sink.{SinkState, Takes, WriteFails, FlushFails, as_flushed};

    /// What the sink tells: the bytes that it has taken, where it tells them; how many of its writes
    /// and flushes failed, how often it took nothing of a nonempty piece, and how many flushes were
    /// asked for, counts that stand still at 2^64 - 1; and whether it took no byte since its last
    /// flush that succeeded.
    ghost state: { Self → SinkState };

    /// Takes a front of `piece` and says how many bytes that is, 0..=`piece.len()`. A write that
    /// fails takes none.
    fn write(&mut self, piece: &[u8]) -> Result<usize, Failed>
        ensures ok { IfOk result (Takes (state self.old) (state self.new) piece.now) }
        ensures failed { OnErr result (WriteFails (state self.old) (state self.new)) };

    /// Hands on what the sink still holds back. A flush that fails leaves the bytes taken as they
    /// were, and not flushed unless they were so before.
    fn flush(&mut self) -> Result<(), Failed>
        ensures ok { OnOk result (state self.new ≡ as_flushed (state self.old)) }
        ensures failed { OnErr result (FlushFails (state self.old) (state self.new)) };
}
