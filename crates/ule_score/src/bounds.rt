ghost use Rattle.std.specs.Prelude.{◌≡◌};
ghost use Rattle.ule_score.specs.Bounds.{better_of, BetterOfIsLower, KeepsBoundsAtHistories, KeepsBoundsAtUses, KeepsBoundsAtBases, KeepsBoundsAtLoans, KeepsBoundsAtTimes};

use ule_prio::Priority;

/// The priority that a thread is queued and compared by, 0..=255: its `base` priority, or the one
/// that is `lent` to it where that is better, which is lower. This is the number of the priority
/// change rule.
///
/// After `sched_lend_user_prio`, which takes the lower of `td_base_user_pri` and the lent priority
/// for `td_user_pri`, and `sched_thread_priority`, which stores it. FreeBSD raises the priority of
/// a thread that enters the kernel and restores it on return; here it stays the same there.
pub fn effective_priority(base: Priority, lent: Option<Priority>) -> Priority
    ensures { result ≡ better_of base lent }
{
    match lent {
        Some(lent) => base.min(lent),
        None => base,
    }
}

/// The law of the priority change: the number is the lent priority where that is lower than the
/// base priority, and the base priority else. It does nothing when it runs.
pub fn effective_priority_is_the_lower()
    ensures { BetterOfIsLower }
{}

/// The laws of a thread's record: its bounds, `KeepsBounds` of the specs, last over each rule that
/// changes it. These are the history update and the fork decay, the CPU-use update at a later time
/// below 2^36 hz ticks, a computed base priority, a priority that is lent or taken back, and the
/// slice count and the times that an event sets. It does nothing when it runs.
pub fn record_keeps_bounds()
    ensures histories { KeepsBoundsAtHistories }
    ensures uses { KeepsBoundsAtUses }
    ensures bases { KeepsBoundsAtBases }
    ensures loans { KeepsBoundsAtLoans }
    ensures times { KeepsBoundsAtTimes }
{}
