//! The laws of the rounds: what holds of the history of rounds of every setup; that no command has
//! more items than it is charged; what every legal history keeps of the batch calendars, with an
//! example; and an example of a legal history that no rounds make. Each law is the contract of a
//! function that does nothing.
#![tactic(auto)]

pub use charges::commands_keep_to_their_charges;
pub use history::{rounds_are_legal, rounds_are_plays, rounds_go_on};
pub use late_switch::late_switch_is_legal;
pub use promise::{histories_keep_the_calendar_promise, thread_comes_nearer};

pub mod charges;
pub mod history;
pub mod late_switch;
pub mod promise;
