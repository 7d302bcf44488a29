//! The tests of `ule_words`: over the two small schedulers of `ule_micro_rows`, what the steps answer,
//! one after another and by workers that run at once.
#![tactic(auto)]

pub mod nap;
pub mod shift;
#[cfg(test)]
mod tests;
