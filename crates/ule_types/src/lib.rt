//! What goes in and what comes out: the setup that a scenario spells, its commands, the events
//! and replies of the scheduler, and the outcome that a trace spells.
#![tactic(auto)]

pub use command::{Command, greatest};
pub use event::{Entry, Event, Item, MoveWhy, Reply};
pub use fault::ScenarioFault;
pub use items::Items;
pub use outcome::{Outcome, ThreadLine};
pub use scripts::Scripts;
pub use setup::{Form, Groups, Setup, Specs, ThreadSpec, Turns, Unborn};

pub mod command;
pub mod event;
pub mod fault;
pub mod items;
pub mod outcome;
pub mod scripts;
pub mod setup;
