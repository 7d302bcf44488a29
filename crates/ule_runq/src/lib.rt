//! The run queue, after `struct runq` of `runq.h` and its functions in `kern_switch.c`: 64
//! buckets of threads, which callers see as 64 lists of thread numbers, each head first, and which
//! are kept as a status word and links by thread number. And sets of thread numbers, by which a
//! thread is sought in it.
#![tactic(auto)]

pub mod links;
pub mod runq;
pub mod set;

pub use links::Links;
pub use runq::{RQ_NQS, Runq};
pub use set::ThreadSet;
