//! The race of a scenario: each worker runs its script on a thread of its own, over the shared
//! scheduler, and the trace of the one history that all of them make is written.
#![tactic(auto, using(ule_io::proofs::Written::writes))]

pub use gate::{Gate, Open};
pub use threads::workers;
pub use top::race_top;

mod gate;
mod play;
mod script;
mod threads;
mod top;
