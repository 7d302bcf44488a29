//! The plain text of a setup: one spelling of it as a scenario, which is read as the same setup.
#![tactic(auto)]

pub use law::plain_texts_are_read_back;
pub use setup::write_setup;

mod command;
mod law;
mod line;
mod section;
mod setup;
