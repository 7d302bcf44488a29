ghost use Rattle.std.specs.Prelude.{◌≡◌, ◌+◌, ◌*◌, ◌/◌, ◌^◌, ◌<◌, ◌≤◌, pos, ◌+ℤ◌};
ghost use Rattle.ule_score.specs.TimesharePriority.{at_least_zero, use_steps, batch_priority, timeshare_priority, TimesharePriorityIsBounded, TimesharePrioritySplits};

use crate::interactivity::score;
use ule_history::{CpuUse, HZ, History, SCHED_TICK_SHIFT};
use ule_prio::ranges::{PRI_MAX_INTERACT, PRI_MIN_BATCH, PRI_MIN_TIMESHARE};
use ule_prio::{Nice, Priority};

/// The priority of a batch thread of nice value 0 that used no CPU time, 172: a nice value of -20
/// makes it the best of the batch range.
pub const SCHED_PRI_MIN: u8 = PRI_MIN_BATCH + 20;

/// How many priorities CPU use spreads batch threads over.
pub const SCHED_PRI_RANGE: u8 = 32;

// A number to which a nice value is added, or 0 where that is negative.
fn niced(n: u8, nice: Nice) -> u8
    requires { n ≤ 203 }
    ensures number { result ≡ at_least_zero (pos n +ℤ nice) }
    ensures at_most { result ≤ n + 20 }
    ensures at_least { n ≤ result + 20 }
{
    n.saturating_add_signed(nice.0)
}

// The priorities that CPU use costs, after `SCHED_PRI_TICKS`.
#[tactic(auto, unfolding(crate::specs::TimesharePriority::use_steps))]
fn steps(u: CpuUse) -> u64
    requires { u.ftick ≤ u.ltick }
    ensures { result ≡ use_steps u }
{
    let window = (u.ltick - u.ftick).max(HZ);
    (u.ticks >> SCHED_TICK_SHIFT) / window.div_ceil(u64::from(SCHED_PRI_RANGE))
}

// The priority of a thread that is not interactive.
#[tactic(auto, unfolding(crate::specs::TimesharePriority::batch_priority))]
fn batch(u: CpuUse, nice: Nice) -> Priority
    requires { u.ftick ≤ u.ltick }
    ensures number { result ≡ batch_priority u nice }
    ensures at_least { 152 ≤ result }
    ensures at_most { result ≤ 223 }
{
    let used = steps(u).min(u64::from(SCHED_PRI_RANGE) - 1) as u8;
    Priority(niced(SCHED_PRI_MIN + used, nice))
}

// The priority of an interactive thread: its score stretched over the interactive range.
fn interactive(score: u8, threshold: u8) -> Priority
    requires { score < threshold }
    ensures number { result ≡ 120 + 32 / threshold * score }
    ensures at_most { result ≤ 151 }
{
    let range = PRI_MAX_INTERACT - PRI_MIN_TIMESHARE + 1;
    Priority(PRI_MIN_TIMESHARE + range / threshold * score)
}

/// The base priority of a timeshare thread with this history, CPU use and nice value, 120..=223.
///
/// The nice value is added to the interactivity score, and a negative sum counts as 0. A sum below
/// the `threshold`, 1..=100, makes the thread interactive: its priority is 120, worse by 32 /
/// `threshold` for each point of the sum, so 120..=151. Any other makes it a batch thread: its
/// priority is 172, worse by one for each whole 32nd of its window that it ran, up to 31, and
/// worse by its nice value, or better where that is negative, so 152..=223. A window of less than
/// 1000 hz ticks counts as one of 1000.
///
/// After `sched_priority`, which stores the priority where this answers it, with the same numbers.
/// FreeBSD takes the nice value of the thread's process; here each thread has its own.
#[tactic(auto, unfolding(crate::specs::TimesharePriority::timeshare_priority, crate::specs::TimesharePriority::priority_at))]
pub fn ts_priority(h: History, u: CpuUse, nice: Nice, threshold: u8) -> Priority
    requires least { 1 ≤ threshold }
    requires greatest { threshold ≤ 100 }
    requires in_range { h.run + h.slept < 2 ^ 63 }
    requires ordered { u.ftick ≤ u.ltick }
    ensures number { result ≡ timeshare_priority h u nice threshold }
    ensures at_least { 120 ≤ result }
    ensures at_most { result ≤ 223 }
{
    let sum = niced(score(h, threshold), nice);
    if sum < threshold {
        interactive(sum, threshold)
    } else {
        batch(u, nice)
    }
}

/// The laws of the timeshare priority: for a nice value from -20 to 20 it is 120..=223; and the
/// thread is interactive, 120..=151, where its score and nice value come to less than the
/// threshold, and a batch thread, 152..=223, where they don't. It does nothing when it runs.
pub fn timeshare_priority_is_bounded()
    ensures bounded { TimesharePriorityIsBounded }
    ensures split { TimesharePrioritySplits }
{}
