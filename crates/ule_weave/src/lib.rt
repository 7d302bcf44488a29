//! The text that a play turn by turn writes: what each turn of a worker did, and which locks were
//! held and where each thread stood behind it.
#![tactic(auto)]

pub use weave::Weave;

mod declared;
mod line;
mod stand;
pub mod weave;
