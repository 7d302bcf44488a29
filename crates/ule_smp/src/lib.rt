//! The shared scheduler: the scheduler of a setup over lock words, for workers that run at once. A
//! worker runs commands on its pass, and at the end all passes give one history.
#![tactic(auto)]

mod close;
mod course;
mod event;
mod hold;
mod look;
mod seek;
mod smp;
mod start;
mod taken;

pub use close::Closed;
pub use hold::Held;
pub use smp::{Smp, SmpPass, SmpPasses, left};
