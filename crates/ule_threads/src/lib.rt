//! Tables by thread number: of records, and of records with places.
#![tactic(auto)]

pub use standing::{Standing, Standings};
pub use threads::Threads;

mod slots;
pub mod standing;
pub mod threads;
