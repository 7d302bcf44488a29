// The top call of a race.
ghost use Rattle.std.specs.Prelude.{◌≡◌, ◌≢◌, None, Some, map, string_bytes};
ghost use Rattle.ule_race.specs.Race.{Answers, GaveRace, Races, is_race};

use crate::gate::Gate;
use crate::play::play_race;
use std::alloc::Global;
use std::sync::Wait;
use std::thread::Threads;
use ule_io::{Sink, Source};
use ule_smp::Closed;
use ule_task::{DONE, NO_MEMORY, USAGE, finish, read_setup, tell};
use ule_trace::write_trace;
use ule_types::Setup;

/// Whether the words of a command line are the one word `race`.
fn is_race(words: &[String]) -> bool
    ensures { result ≡ is_race (map string_bytes words.now) }
{
    match words {
        [name] => name.as_str() == "race",
        _ => false,
    }
}

/// What is kept of a race whose trace was written with this status.
fn kept_at(status: u8, closed: Closed) -> Option<Closed>
    ensures done { status ≡ 0 → result ≡ Some closed }
    ensures fault { status ≢ 0 → result ≡ None }
{
    if status == DONE {
        return Some(closed);
    }
    None
}

/// Races a setup, and writes the trace.
fn race_setup<R: Threads + Wait + Sync, K: Sink, G: Gate + Sync>(
    rt: &R,
    alloc: Global,
    s: &Setup,
    out: &mut K,
    gate: &G,
) -> (u8, Option<Closed>)
    ensures { GaveRace s.now (K.state out.old) (K.state out.new) result.0 result.1 }
{
    let Ok(closed) = play_race(rt, alloc, s, gate) else {
        return (NO_MEMORY, None);
    };
    let written = write_trace(s, closed.outcome(), out);
    let status = finish(written, DONE, out);
    (status, kept_at(status, closed))
}

/// Reads a scenario, races it and writes the trace.
fn race<R: Threads + Wait + Sync, S: Source, K: Sink, G: Gate + Sync>(
    rt: &R,
    alloc: Global,
    src: &mut S,
    out: &mut K,
    gate: &G,
) -> (u8, Option<Closed>)
    ensures { Races (S.state src.old) (S.state src.new) (K.state out.old) (K.state out.new) result.0 result.1 }
{
    match read_setup(alloc, src) {
        Ok(setup) => race_setup(rt, alloc, &setup, out, gate),
        Err(why) => (tell(why, out), None),
    }
}

/// Races a scenario, where the words are `race`, from the source to the sink, and gives the exit
/// status: every worker runs its script on a thread of its own, where one can be made, with the
/// gate's calls round each command, and the trace of the history that they made is written. `kept`
/// is that history at status 0, and nothing at every other.
///
/// 0: done, and the trace was written and flushed. 1: the words are others, and nothing is read or
/// written. 2: a read failed, within the first 1,048,576 bytes, and nothing is written. 3: the input
/// is no scenario or has more bytes than that, and the line `refused LINE REASON DETAIL` was written
/// and flushed, which tells the first offence. 4: a write or a flush failed or a write took no byte,
/// and a front of the text of 0 or 3 was taken. 5: memory ran out before a worker began, and nothing
/// is written. It may wait, since workers wait for one another's locks.
pub fn race_top<R: Threads + Wait + Sync, S: Source, K: Sink, G: Gate + Sync>(
    rt: &R,
    alloc: Global,
    words: &[String],
    src: &mut S,
    out: &mut K,
    gate: &G,
    kept: &mut Option<Closed>,
) -> u8
    ensures { Answers (map string_bytes words.now) (S.state src.old) (S.state src.new)
        (K.state out.old) (K.state out.new) kept.new result }
{
    if !is_race(words) {
        *kept = None;
        return USAGE;
    }
    let (status, closed) = race(rt, alloc, src, out, gate);
    *kept = closed;
    status
}
