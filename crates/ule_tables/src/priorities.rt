ghost use Rattle.std.specs.Prelude.{◌≡◌, ◌*◌, ◌≤◌};

use crate::SCHED_INTERACT_THRESH;
use crate::table::print_head;
use std::io;
use ule_history::{CpuUse, History, SCHED_SLP_RUN_MAX};
use ule_prio::Nice;
use ule_score::{score, ts_priority};

/// The nice values for which priorities are shown.
const NICE_VALUES: [i8; 9] = [-20, -15, -10, -5, 0, 5, 10, 15, 20];

/// The scores for which they are shown.
const SCORES: [u8; 11] = [0, 5, 10, 15, 20, 25, 30, 35, 40, 45, 50];

/// The CPU use of a thread that did not run in a window of no length.
const NO_USE: CpuUse = CpuUse {
    ticks: 0,
    ltick: 0,
    ftick: 0,
};

/// A history of this score, 0..=50: the maximum of sleep time, and as many fiftieths of it of run
/// time.
fn history_of(score: u8) -> History
    requires { score ≤ 50 }
    ensures run { result.run ≡ 102400 * score }
    ensures slept { result.slept ≡ SCHED_SLP_RUN_MAX }
{
    History {
        run: SCHED_SLP_RUN_MAX / 50 * u64::from(score),
        slept: SCHED_SLP_RUN_MAX,
    }
}

/// Prints the priorities: a row for each score, a column for each nice value.
pub fn print_table(rt: &impl Print) -> io::Result<()> {
    print_head(rt, "score \\ nice", &NICE_VALUES)?;
    for points in SCORES {
        let history = history_of(points);
        print!(rt; "| {} |", score(history, SCHED_INTERACT_THRESH))?;
        for nice in NICE_VALUES {
            let priority = ts_priority(history, NO_USE, Nice(nice), SCHED_INTERACT_THRESH);
            print!(rt; " {} |", priority.0)?;
        }
        println!(rt; "")?;
    }
    Ok(())
}
