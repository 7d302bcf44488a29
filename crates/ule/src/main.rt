//! The program `ule`: it hands its words, standard input and standard output to the top call, and
//! ends with the status that this gives, 0 to 6. Where its words can't be had as text it ends
//! without that call: with 1 where they are none, and with 5 where there is no memory for them.
#![tactic(auto)]

use std::env;
use std::process::ExitCode;
use ule_io::{StdSink, StdSource};
use ule_task::words_of;
use ule_top::top;

fn main(rt: HostRuntime) -> ExitCode {
    let alloc = rt.alloc();
    let words = match words_of(alloc, env::args(&rt)) {
        Ok(words) => words,
        Err(status) => return ExitCode::from(status),
    };
    let mut source = StdSource::over(rt.stdin());
    let mut sink = StdSink::over(rt.stdout());
    ExitCode::from(top(alloc, words.as_slice(), &mut source, &mut sink))
}
