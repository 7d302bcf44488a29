//! One thread's record, what is computed from it, and what events do to it: the interactivity
//! score, the timeshare priority, the better of base and lent priority, and each change, after
//! `struct thread`, `struct td_sched` and `sched_ule.c`.
#![tactic(auto)]

pub use bounds::{effective_priority, effective_priority_is_the_lower, record_keeps_bounds};
pub use change::{
    TICK_LENGTH, after_change, after_fork, after_running, after_sleep, after_tick, before_running,
    before_sleep, child_of, note_ran, note_runs, placed_on, rebased, record_changes_keep,
};
pub use interactivity::{score, score_is_bounded};
pub use place::Place;
pub use priority::{timeshare_priority_is_bounded, ts_priority};
pub use record::{Change, Changed, CpuLine, Settings, ThreadRecord, Why};

pub mod bounds;
pub mod change;
pub mod interactivity;
pub mod place;
pub mod priority;
pub mod record;
