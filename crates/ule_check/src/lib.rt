//! The judgment of traces: whether a trace tells a whole legal history of a setup, and its end.
#![tactic(auto)]

pub use judgment::verdict;
pub use laws::{legal_is_whole, runs_are_legal, whole_is_legal};
pub use verdicts::{Fault, FinalName, Verdict};

mod fault;
mod judge;
pub mod judgment;
pub mod laws;
mod seat;
mod time;
pub mod verdicts;
