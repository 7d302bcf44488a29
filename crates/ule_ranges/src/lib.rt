//! The law of ranges: what a play of a setup in rounds comes to can be told by a trace. It is the
//! contract of a function that does nothing.
#![tactic(auto)]

pub use laws::plays_fit;

pub mod laws;
