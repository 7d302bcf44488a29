// Reading a source to its end.
ghost use Rattle.std.specs.Prelude.{◌≡◌, ℕ, List, ◌<◌, ◌++◌, length, take, IfOk, OnErr, OnOk};
ghost use Rattle.ule_io.specs.Counter.{one_more};
ghost use Rattle.ule_io.specs.Playback.{ends_after};
ghost use Rattle.ule_io.specs.Source.{ReadAll};

use crate::{Failed, Source};
use std::alloc::Global;
use std::marker::Model;
use thiserror::Error;

/// Why a source was not read to its end.
#[derive(Clone, Copy, Debug, PartialEq, Eq, Error)]
pub enum ReadAllFault {
    /// A read failed, as the source counts, before more bytes than the limit came.
    #[error("a read failed")]
    ReadFault,
    /// More bytes came than the limit allows.
    #[error("the input is too long")]
    TooLong,
    /// Memory ran out for the bytes taken.
    #[error("out of memory")]
    Memory,
}

/// The bytes of a whole input.
#[derive(Drop)]
pub struct Bytes {
    bytes: Vec<u8>,
}

impl Model for Bytes {
    ghost Value = { List ℕ };

    ghost view = { λ b. b.bytes.items };
}

impl Bytes {
    /// All of the bytes, in their order.
    pub fn as_slice(&self) -> &[u8]
        ensures { result.now ≡ self.now }
    {
        &self.bytes
    }
}

/// How many reads met the end, with one that gave n bytes into a buffer with this room.
pub(crate) fn count_end(ends: u64, room: usize, n: usize) -> u64
    ensures value { result ≡ ends_after ends room n }
    ensures met_end { n ≡ 0 → 0 < room → result ≡ one_more ends }
    ensures else_open { 0 < n → result ≡ ends }
    ensures no_room { room ≡ 0 → result ≡ ends }
{
    if room > 0 && n == 0 {
        ends.saturating_add(1)
    } else {
        ends
    }
}

// The most that one read takes, in bytes.
const PIECE: usize = 8192;

/// All bytes to the end of the source, of which there may be at most `limit`. `TooLong` comes where
/// one byte more was taken, and no further byte is. One read meets the end where the answer is the
/// bytes, and else none. `ReadFault` comes with at most `limit` bytes taken, and `Memory` with at
/// most one more. After either the bytes taken are lost.
pub fn read_all<S: Source>(alloc: Global, src: &mut S, limit: usize) -> Result<Bytes, ReadAllFault>
    ensures { ReadAll (S.state src.old) (S.state src.new) limit result }
{
    let mut bytes = Vec::new(alloc);
    let mut piece = [0; PIECE];
    while bytes.len() <= limit {
        let most = (limit - bytes.len()).min(PIECE - 1) + 1;
        match src.read(&mut piece[..most]) {
            Err(Failed) => return Err(ReadAllFault::ReadFault),
            Ok(0) => return Ok(Bytes { bytes }),
            Ok(n) => {
                if bytes.extend_from_slice(&piece[..n]).is_err() {
                    return Err(ReadAllFault::Memory);
                }
            }
        }
    }
    Err(ReadAllFault::TooLong)
}
