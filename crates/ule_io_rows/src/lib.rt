//! The tests of streams: what sources and sinks in memory answer, what is left after a fault, the
//! standard streams, and a scenario that comes in pieces. Standard input with bytes in it is read by
//! the stored run of `ule`, since a test is given none.
#![tactic(auto)]

#[cfg(test)]
mod pieces;
#[cfg(test)]
mod rows;
#[cfg(test)]
mod tests;
