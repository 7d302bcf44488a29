//! The top call: from the words of a command line and the bytes of a source to the bytes of a
//! sink and an exit status.
#![tactic(auto, using(ule_io::proofs::Written::writes))]

pub use command::top;
pub use example::{lost_turn_is_traced, one_yield_is_traced};
pub use laws::runs_are_found_legal;

mod check;
mod command;
mod example;
mod laws;
mod plain;
mod rounds;
mod summary;
mod task;
mod verdict_line;
mod weave;
