//! The batch calendar of a CPU, after `tdq_timeshare` of `sched_ule.c`: 64 buckets that threads
//! are filed in by priority from the insertion index on, and taken from at the removal index.
#![tactic(auto)]

pub use calendar::Calendar;

pub mod calendar;
