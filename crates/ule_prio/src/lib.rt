//! Priorities, scheduling classes, queue kinds and the preemption test, after `priority.h` and
//! the head of `sched_ule.c`. A lower number is a better priority everywhere.
#![tactic(auto)]

pub use class::{Class, allows};
pub use ids::{Cpu, LockId, Nice, Priority, ThreadId};
pub use kind::{Kind, kind_of};
pub use preemption::preempts;

pub mod class;
pub mod ids;
pub mod kind;
pub mod preemption;
pub mod ranges;
