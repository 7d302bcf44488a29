//! The laws by which a value of the code stands for a world: each step of a CPU's value and of the
//! whole scheduler's is that of the world that it shows. Contracts of functions that do nothing say
//! that what a call makes of the value of a chain or of limbo stands for the world after its event,
//! that what the locks guard at the start of a setup stands for its world at the start, and what
//! the step of an event touches, moves and leaves of a world.
#![tactic(auto)]

pub use opening_values::opening_values_show;
pub use sleep_calls::{chain_calls_stand, limbo_calls_stand};
pub use steps::{step_is_made, step_leaves_rest, step_moves_word, step_touches};

pub mod opening_values;
pub mod sleep_calls;
pub mod steps;
