//! Listed plays of the small schedulers, of which each turn is printed. The wanted turns stand in the
//! stored output.
ghost use Rattle.std.specs.Prelude.{◌<◌, length, All};

use std::alloc::Global;
use std::fmt::Debug;
use std::io::{self, ErrorKind, Print};
use ule_micro::{Micro, Parts};
use ule_micro_rows::nap::{CHAIN, Nap, QUEUE};
use ule_micro_rows::shift::Shifts;
use ule_prio::{LockId, ThreadId};

/// The workers of the turns in which the thread goes to the sleep chain and back.
const NAP_WORKERS: [u8; 33] = [
    1, 0, 1, 0, 0, 0, 0, 1, 1, 1, 1, 0, 0, 0, 1, 0, 1, 1, 0, 1, 0, 0, 1, 1, 1, 1, 1, 1, 1, 1, 1, 1,
    1,
];

/// The workers of the turns in which the thread is moved under two locks.
const SHIFT_WORKERS: [u8; 26] = [
    0, 1, 1, 0, 0, 0, 0, 0, 1, 0, 1, 1, 1, 1, 1, 0, 0, 1, 1, 1, 1, 1, 0, 0, 0, 0,
];

/// Prints the listed plays.
pub fn print_rows(rt: &impl Print, alloc: Global) -> io::Result<()> {
    print_play(rt, alloc, Nap, &NAP_WORKERS, &[QUEUE, CHAIN])?;
    print_play(rt, alloc, Shifts, &SHIFT_WORKERS, &[LockId(0), LockId(1)])
}

/// Plays a turn of each of these workers, and prints what it came to; then who holds each of these
/// locks and what stands under it, the word of thread 0 and the ticket.
fn print_play<P: Parts + Drop>(
    rt: &impl Print,
    alloc: Global,
    parts: P,
    workers: &[u8],
    locks: &[LockId],
) -> io::Result<()>
where
    P::Value: Debug,
    requires { All (λ w. w < length (P.means parts).owns) workers.now }
{
    let Ok(mut micro) = Micro::start(alloc, parts) else {
        return Err(io::Error::from(ErrorKind::OutOfMemory));
    };
    for &worker in workers {
        let turn = micro.advance(worker);
        println!(rt; "worker {worker}: {turn:?}")?;
    }
    for &lock in locks {
        let holder = micro.holder(lock);
        let value = micro.value(lock);
        println!(rt; "{lock:?}: holder {holder:?}, value {value:?}")?;
    }
    let word = micro.word(ThreadId(0));
    let ticket = micro.ticket();
    println!(rt; "word {word:?}, ticket {ticket}")
}
