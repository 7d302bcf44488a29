//! Explains a scenario: reads one from standard input, plays it a turn after another, and prints its
//! trace with what each entry came from below it, on lines that begin with two spaces. Without these
//! lines the text is the trace that `ule run` prints.
//!
//! It is also an example of how the library is used: `ule_scenario` reads a setup, a `Player` of
//! `ule_seq` plays it, and each number that is told comes from the crate that owns its rule.
#![tactic(auto)]

mod choice;
mod playing;
mod records;
mod search;
mod view;

use playing::explain;
use std::io;
use std::process::ExitCode;
use thiserror::Error;
use ule_io::{Memory, ReadAllFault, StdSource, WriteFault, read_all};
use ule_scenario::read;
use ule_types::ScenarioFault;

/// The most bytes that a scenario may have.
const SCENARIO_LIMIT: usize = 1_048_576;

/// Why a scenario was not explained.
#[derive(Debug, Drop, Error)]
pub enum Fault {
    #[error(transparent)]
    Read(#[from] ReadAllFault),
    #[error(transparent)]
    NoScenario(#[from] ScenarioFault),
    #[error(transparent)]
    Print(#[from] io::Error),
    #[error(transparent)]
    Line(#[from] WriteFault),
    #[error("out of memory")]
    Memory(#[from] Memory),
}

/// Reads a scenario from standard input, and prints its trace with what each entry came from.
fn run(rt: &HostRuntime) -> Result<(), Fault> {
    let alloc = rt.alloc();
    let mut source = StdSource::over(rt.stdin());
    let input = read_all(alloc, &mut source, SCENARIO_LIMIT)?;
    let setup = read(alloc, input.as_slice())?;
    explain(rt, alloc, &setup)
}

fn main(rt: HostRuntime) -> ExitCode {
    match run(&rt) {
        Ok(()) => ExitCode::SUCCESS,
        Err(fault) => {
            let _ = eprintln!(rt; "ule_explain: {fault}");
            ExitCode::FAILURE
        }
    }
}
