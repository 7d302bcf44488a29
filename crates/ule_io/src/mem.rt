// A source and a sink in memory, whose faults and short moves are set in advance.
ghost use Rattle.std.specs.Prelude.{◌≡◌, ◌++◌, ◌<◌, [], true, length, take, drop, IfOk, OnOk, OnErr, if◌then◌else◌};
ghost use Rattle.ule_io.specs.Counter.{one_more, Rose};
ghost use Rattle.ule_io.specs.Source.{Reads, ReadFails};
ghost use Rattle.ule_io.specs.Sink.{Takes, WriteFails, FlushFails, as_flushed};
ghost use Rattle.ule_io.specs.Calls.{no_calls, is_listed, after_call, after_fault};
ghost use Rattle.ule_io.specs.Playback.{source_state, read_answer, after_read};
ghost use Rattle.ule_io.specs.Recording.{sink_state, write_answer, after_write, flush_answer, after_flush};

use crate::reading::count_end;
use crate::{Failed, Memory, Sink, Source};
use std::alloc::Global;
use std::marker::Model;

// The calls made, of which those with a listed number fail. The first has number 1.
#[derive(Drop)]
struct Calls {
    made: u64,
    fails: Vec<u64>,
    faults: u64,
}

impl Model for Calls {
    ghost use Rattle.ule_io.specs.Calls.{CallRecord};

    ghost Value = { CallRecord };

    ghost view = { λ c. record { made = c.made; fails = c.fails.items; faults = c.faults } };
}

impl Calls {
    fn start(alloc: Global, fails: &[u64]) -> Result<Calls, Memory>
        ensures { IfOk result (λ calls. calls ≡ no_calls fails.now) }
    {
        Ok(Calls {
            made: 0,
            fails: fails.to_vec(alloc)?,
            faults: 0,
        })
    }

    // Counts one more call, which fails if its number is listed.
    fn begin(&mut self) -> Result<(), Failed>
        ensures answer { result ≡ (if is_listed self.old then Err (record {}) else Ok tt) }
        ensures ok { OnOk result (self.new ≡ after_call self.old) }
        ensures failed { OnErr result (self.new ≡ after_fault self.old) }
        ensures rose { OnErr result (Rose self.old.faults self.new.faults) }
    {
        self.made = self.made.saturating_add(1);
        if self.fails.contains(&self.made) {
            return Err(self.fail());
        }
        Ok(())
    }

    // Counts the fault of the call that was begun last.
    fn fail(&mut self) -> Failed
        ensures counted { self.new ≡ record self.old { faults = one_more self.old.faults } }
        ensures rose { Rose self.old.faults self.new.faults }
    {
        self.faults = self.faults.saturating_add(1);
        Failed
    }
}

/// A source that plays back bytes from memory.
#[derive(Drop)]
pub struct MemSource {
    bytes: Vec<u8>,
    next: usize,
    most: usize,
    calls: Calls,
    ends: u64,
}

impl Model for MemSource {
    ghost use Rattle.std.specs.Prelude.{◌<◌, ◌≤◌, length, drop};
    ghost use Rattle.ule_io.specs.Playback.{Playback};

    ghost Value = { Playback };

    ghost view = { λ s. record { left = drop s.next s.bytes.items; most = s.most; calls = s.calls; ends = s.ends } };

    ghost invariant = { λ s. (s.next ≤ length s.bytes.items) × (0 < s.most) };
}

impl MemSource {
    /// A source of `bytes`, each read of which moves at most `most` of them. Its reads are numbered
    /// from 1, and those whose numbers are in `fails` fail and move none.
    pub fn start(
        alloc: Global,
        bytes: &[u8],
        most: usize,
        fails: &[u64],
    ) -> Result<MemSource, Memory>
        requires { 0 < most }
        ensures { IfOk result (λ s. s ≡ record { left = bytes.now; most = most; calls = no_calls fails.now; ends = 0 }) }
    {
        Ok(MemSource {
            bytes: bytes.to_vec(alloc)?,
            next: 0,
            most,
            calls: Calls::start(alloc, fails)?,
            ends: 0,
        })
    }

    /// The bytes that no read has moved yet.
    pub fn left(&self) -> &[u8]
        ensures { result.now ≡ self.now.left }
    {
        self.bytes.split_at(self.next).1
    }

    /// How many reads into a buffer with room moved no byte, as a read at the end does.
    pub fn ends(&self) -> u64
        ensures { result ≡ self.now.ends }
    {
        self.ends
    }
}

impl Source for MemSource {
    ghost state = { source_state };

    fn read(&mut self, buf: &mut [u8]) -> Result<usize, Failed>
        ensures ok { IfOk result (Reads (source_state self.old) (source_state self.new) buf.new) }
        ensures failed { OnErr result (ReadFails (source_state self.old) (source_state self.new)) }
        ensures answer { result ≡ read_answer self.old (length buf.old) }
        ensures after { self.new ≡ after_read self.old (length buf.old) }
        ensures moved { IfOk result (λ n. buf.new ≡ take n self.old.left ++ drop n buf.old) }
    {
        self.calls.begin()?;
        let left = self.bytes.split_at(self.next).1;
        let room = buf.len();
        let n = self.most.min(room).min(left.len());
        buf[..n].copy_from_slice(&left[..n]);
        self.next += n;
        self.ends = count_end(self.ends, room, n);
        Ok(n)
    }
}

/// A sink that keeps bytes in memory.
#[derive(Drop)]
pub struct MemSink {
    bytes: Vec<u8>,
    room: usize,
    most: usize,
    calls: Calls,
    empty_takes: u64,
    flushed: bool,
    flushes: u64,
}

impl Model for MemSink {
    ghost use Rattle.std.specs.Prelude.{◌≤◌, vec_len, vec_capacity};
    ghost use Rattle.ule_io.specs.Recording.{Recording};

    ghost Value = { Recording };

    ghost view = { λ s. record { taken = s.bytes.items; room = s.room; most = s.most; calls = s.calls; empty_takes = s.empty_takes; flushed = s.flushed; flushes = s.flushes } };

    ghost invariant = { λ s. (vec_len s.bytes ≤ s.room) × (s.room ≤ vec_capacity s.bytes) };
}

impl MemSink {
    /// A sink with room for `room` bytes, each write of which takes at most `most`, and none where
    /// `most` is 0. Its writes and flushes are numbered together from 1. Those whose numbers are in
    /// `fails` fail, and so does a write of a nonempty piece where no room is left. It is flushed, as
    /// nothing was taken yet.
    pub fn start(alloc: Global, room: usize, most: usize, fails: &[u64]) -> Result<MemSink, Memory>
        ensures { IfOk result (λ s. s ≡ record { taken = []; room = room; most = most; calls = no_calls fails.now; empty_takes = 0; flushed = true; flushes = 0 }) }
    {
        Ok(MemSink {
            bytes: Vec::with_capacity(alloc, room)?,
            room,
            most,
            calls: Calls::start(alloc, fails)?,
            empty_takes: 0,
            flushed: true,
            flushes: 0,
        })
    }

    /// The bytes that were taken.
    pub fn bytes(&self) -> &[u8]
        ensures { result.now ≡ self.now.taken }
    {
        &self.bytes
    }

    /// Whether no byte was taken since the last flush that succeeded, or since the start.
    pub fn is_flushed(&self) -> bool
        ensures { result ≡ self.now.flushed }
    {
        self.flushed
    }

    /// How many flushes were asked for.
    pub fn flushes(&self) -> u64
        ensures { result ≡ self.now.flushes }
    {
        self.flushes
    }
}

impl Sink for MemSink {
    ghost state = { sink_state };

    fn write(&mut self, piece: &[u8]) -> Result<usize, Failed>
        ensures ok { IfOk result (Takes (sink_state self.old) (sink_state self.new) piece.now) }
        ensures failed { OnErr result (WriteFails (sink_state self.old) (sink_state self.new)) }
        ensures answer { result ≡ write_answer self.old piece.now }
        ensures after { self.new ≡ after_write self.old piece.now }
    {
        self.calls.begin()?;
        let free = self.room - self.bytes.len();
        if free == 0 && !piece.is_empty() {
            return Err(self.calls.fail());
        }
        let n = self.most.min(piece.len()).min(free);
        if n == 0 && !piece.is_empty() {
            self.empty_takes = self.empty_takes.saturating_add(1);
        }
        if n > 0 {
            self.flushed = false;
        }
        self.bytes.extend_from_slice(&piece[..n]).unwrap();
        Ok(n)
    }

    fn flush(&mut self) -> Result<(), Failed>
        ensures ok { OnOk result (sink_state self.new ≡ as_flushed (sink_state self.old)) }
        ensures failed { OnErr result (FlushFails (sink_state self.old) (sink_state self.new)) }
        ensures answer { result ≡ flush_answer self.old }
        ensures after { self.new ≡ after_flush self.old }
    {
        self.flushes = self.flushes.saturating_add(1);
        self.calls.begin()?;
        self.flushed = true;
        Ok(())
    }
}
