//! The steal rule: which thread a queue gives to another CPU, after `tdq_steal`, `runq_steal` and
//! `runq_steal_from` of `sched_ule.c`. It only says which, and takes no thread out.
#![tactic(auto)]

pub mod steal;

pub use steal::{pick_batch, pick_plain};
