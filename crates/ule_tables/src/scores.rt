ghost use Rattle.std.specs.Prelude.{◌≡◌, ◌*◌};

use crate::SCHED_INTERACT_THRESH;
use crate::table::print_head;
use std::io;
use ule_history::{History, SCHED_SLP_RUN_MAX};
use ule_score::score;

/// The tenths of the maximum of run and sleep time for which scores are shown.
const TENTHS: [i8; 11] = [0, 1, 2, 3, 4, 5, 6, 7, 8, 9, 10];

/// The history with these tenths of the maximum on its sides.
fn history_at(run: u8, slept: u8) -> History
    ensures run { result.run ≡ 512000 * run }
    ensures slept { result.slept ≡ 512000 * slept }
{
    let tenth = SCHED_SLP_RUN_MAX / 10;
    History {
        run: tenth * u64::from(run),
        slept: tenth * u64::from(slept),
    }
}

/// Prints the scores: a row for each tenth of run time, a column for each tenth of sleep time.
pub fn print_table(rt: &impl Print) -> io::Result<()> {
    print_head(rt, "run \\ slept", &TENTHS)?;
    for run in 0..=10 {
        print!(rt; "| {run} |")?;
        for slept in 0..=10 {
            let points = score(history_at(run, slept), SCHED_INTERACT_THRESH);
            print!(rt; " {points} |")?;
        }
        println!(rt; "")?;
    }
    Ok(())
}
