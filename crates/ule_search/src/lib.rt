//! The search for a CPU by what looks at the CPUs saw, after `cpu_search_lowest` and
//! `cpu_search_highest`.
#![tactic(auto)]

pub use jitter::{Jitter, stepped_word};
pub use key::draw_keys;
pub use rank::sums;
pub use search::{highest, lowest};

pub mod jitter;
pub mod key;
pub mod laws;
pub mod rank;
pub mod search;
