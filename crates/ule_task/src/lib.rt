//! What the programs and their tasks share: the words of a command line, how a scenario is read to
//! its end, how its refusal is told, and how a text ends.
#![tactic(auto, using(ule_io::proofs::Written::writes))]

pub use input::{TOO_LONG, Unread, read_setup, tell, why_refused};
pub use output::{DONE, ILLEGAL, NO_MEMORY, READ_FAULT, REFUSED, USAGE, WRITE_FAULT, finish};
pub use words::words_of;

mod input;
mod output;
mod words;
