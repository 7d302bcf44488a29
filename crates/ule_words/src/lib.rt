//! Lock words of running threads: 25 lock words, 256 threads' words, the ticket and now, over which
//! workers that run at once perform the events of their programs in atomic steps.
#![tactic(auto)]

mod asking;
mod close;
mod holding;
pub mod laws;
mod locks;
mod log;
mod merge;
mod pass;
mod perform;
mod programs;
mod start;
mod tape;
mod view;

pub use locks::{Busy, Locks};
pub use pass::{Pass, Passes, allowance, value, worker};
