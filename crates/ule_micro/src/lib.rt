//! The step model: workers that perform the events of their programs in atomic steps, over lock
//! words and thread words. The lock that a thread's word names moves with the thread.
#![tactic(auto)]

pub mod entry;
mod going;
pub mod laws;
pub mod locks;
pub mod micro;
pub mod opening;
pub mod parts;
mod performing;
pub mod seat;
pub mod todo;
pub mod turn;
pub mod word;

pub use entry::HeldLocks;
pub use micro::Micro;
pub use parts::{OwnPart, Parts};
pub use todo::Todo;
pub use turn::{StepDone, Turn};
pub use word::{Word, WordChange};
