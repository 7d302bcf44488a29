//! The choice of a CPU for a thread, after `sched_pickcpu`.
#![tactic(auto)]

pub use choice::{Card, is_near, near_above, pick};

pub mod choice;
pub mod laws;
