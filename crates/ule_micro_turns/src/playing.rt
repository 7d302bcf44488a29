//! Turns of the step model over the shifting thread, whose event under two locks moves the thread.
ghost use Rattle.std.specs.Prelude.{◌≤◌, ◌<◌, ◌*◌, IfOk};

use std::alloc::Global;
use ule_io::Memory;
use ule_micro::{Micro, StepDone, Turn};
use ule_micro_rows::shift::Shifts;

/// The most turns of a play, and the most times to play it.
pub const MOST: u32 = 65_536;

/// The workers of the shifting thread.
const WORKERS: u8 = 2;

/// Plays this many turns so many times, and counts the entries of all plays.
pub fn entries_of(alloc: Global, turns: u32, times: u32) -> Result<u64, Memory>
    requires few { turns ≤ MOST }
    requires often { times ≤ MOST }
    ensures { IfOk result (λ entries. entries ≤ turns * times) }
{
    let mut entries = 0;
    for _play in 0..times {
        entries += u64::from(play(alloc, turns)?);
    }
    Ok(entries)
}

/// Plays this many turns, the workers in rotation, and counts the entries. Behind the end of all
/// programs the workers start anew.
fn play(alloc: Global, turns: u32) -> Result<u32, Memory>
    ensures { IfOk result (λ entries. entries ≤ turns) }
{
    let mut micro = Micro::start(alloc, Shifts)?;
    let mut entries = 0;
    let mut finished = 0;
    let mut worker = 0;
    for _turn in 0..turns {
        if finished == WORKERS {
            micro = Micro::start(alloc, Shifts)?;
            finished = 0;
        }
        let turn = micro.advance(worker);
        entries += entries_made(&turn);
        finished = finished_after(finished, &turn);
        worker = next_worker(worker);
    }
    Ok(entries)
}

/// The worker behind this one in the rotation.
fn next_worker(worker: u8) -> u8
    requires { worker < WORKERS }
    ensures { result < WORKERS }
{
    if worker + 1 < WORKERS { worker + 1 } else { 0 }
}

/// The entries that a turn made: one, or none.
fn entries_made(turn: &Turn) -> u32
    ensures { result ≤ 1 }
{
    match turn {
        Turn::Moved(StepDone::Commit(_)) => 1,
        _ => 0,
    }
}

/// How many of the last turns found a program at its end, one after another, after one more turn.
fn finished_after(finished: u8, turn: &Turn) -> u8
    requires { finished < WORKERS }
    ensures { result ≤ WORKERS }
{
    match turn {
        Turn::Finished => finished + 1,
        _ => 0,
    }
}
