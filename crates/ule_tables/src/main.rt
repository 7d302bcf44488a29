//! Prints two tables of the scheduler's rules, in Markdown: the interactivity score over run and
//! sleep time, and the timeshare priority over score and nice value. Both are for the threshold
//! that FreeBSD starts with, and `docs/RULES.md` shows them.
#![tactic(auto)]

mod priorities;
mod scores;
mod table;

use std::io;

/// The threshold below which a score makes a thread interactive, where no setting changes it.
const SCHED_INTERACT_THRESH: u8 = 30;

fn main(rt: HostRuntime) -> io::Result<()> {
    scores::print_table(&rt)?;
    println!(rt; "")?;
    priorities::print_table(&rt)
}
