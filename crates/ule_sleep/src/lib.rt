//! Where threads stand that no CPU has: the sleep chains, after `sleepq_chains` of
//! `subr_sleepqueue.c`, and limbo, which has those that are unborn or gone.
#![tactic(auto)]

pub use chain::Chain;
pub use limbo::Limbo;

pub mod chain;
pub mod limbo;
