// The task `run`: a scenario is played in rounds, and its trace is written.
ghost use Rattle.ule_task.specs.Input.{Gave};
ghost use Rattle.ule_top.specs.Run.{Runs, rounds_text};

use std::alloc::Global;
use ule_io::{Sink, Source};
use ule_seq::play;
use ule_task::{DONE, NO_MEMORY, finish, read_setup, tell};
use ule_trace::write_trace;
use ule_types::Setup;

/// Reads a scenario, plays it and writes the trace.
pub fn run<S: Source, K: Sink>(alloc: Global, src: &mut S, out: &mut K) -> u8
    ensures { Runs (S.state src.old) (S.state src.new) (K.state out.old) (K.state out.new) result }
{
    match read_setup(alloc, src) {
        Ok(setup) => play_setup(alloc, &setup, out),
        Err(why) => tell(why, out),
    }
}

/// Plays a setup and writes the trace.
fn play_setup<K: Sink>(alloc: Global, setup: &Setup, out: &mut K) -> u8
    ensures { Gave (record { status = 0; text = rounds_text setup.now }) (K.state out.old) (K.state out.new) result }
{
    match play(alloc, setup) {
        Ok(outcome) => {
            let written = write_trace(setup, &outcome, out);
            finish(written, DONE, out)
        }
        Err(_) => NO_MEMORY,
    }
}
