//! The tests of `ule_top`: what the streams in memory tell and no run of the program shows.
#![tactic(auto)]

#[cfg(test)]
mod tests;
