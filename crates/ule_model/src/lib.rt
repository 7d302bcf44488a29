//! What the scheduler is: the definitions that queues, CPUs and the whole scheduler are proved
//! against. It has no code that runs but a type that they name.
#![tactic(auto)]

pub use insertion::Insertion;

pub mod insertion;
