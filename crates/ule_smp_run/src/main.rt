//! The program `ule_smp_run`: it hands its words, standard input and standard output to the top call
//! of a race, with the gate that does nothing, and ends with the status that this gives, 0 to 5.
//! Where its words can't be had as text it ends without that call: with 1 where they are none, and
//! with 5 where there is no memory for them.
#![tactic(auto)]

use std::env;
use std::process::ExitCode;
use ule_io::{StdSink, StdSource};
use ule_race::{Open, race_top};
use ule_task::words_of;

fn main(rt: HostRuntime) -> ExitCode {
    let alloc = rt.alloc();
    let words = match words_of(alloc, env::args(&rt)) {
        Ok(words) => words,
        Err(status) => return ExitCode::from(status),
    };
    let mut source = StdSource::over(rt.stdin());
    let mut sink = StdSink::over(rt.stdout());
    let mut kept = None;
    let status = race_top(
        &rt,
        alloc,
        words.as_slice(),
        &mut source,
        &mut sink,
        &Open,
        &mut kept,
    );
    ExitCode::from(status)
}
