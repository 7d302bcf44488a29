//! Two small schedulers for the step model, which between them make each kind of step.
#![tactic(auto)]

pub mod ends;
pub mod nap;
pub mod shift;
