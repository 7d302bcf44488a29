//! The programs of workers: the events and the advances of time of each command, each event with
//! what follows the reply to it.
#![tactic(auto)]

pub use laws::{commands_lead, replies_lead};
pub use own::Own;
pub use program::Program;
pub use stage::{Next, Purpose, Stage};

pub mod laws;
pub mod own;
pub mod program;
pub mod reply;
pub mod stage;
