//! Setups made from a number: large valid ones, for trying and timing what plays them.
#![tactic(auto)]

pub use setup::make;

mod draw;
mod setup;
