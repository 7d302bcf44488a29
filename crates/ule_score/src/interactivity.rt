ghost use Rattle.std.specs.Prelude.{◌≡◌, ◌+◌, ◌^◌, ◌<◌, ◌≤◌};
ghost use Rattle.ule_score.specs.Score.{share_of, score_of, ScoreIsBounded, ShareIsBounded};

use ule_history::History;

/// The worst interactivity score: that of a thread that only runs.
pub const SCHED_INTERACT_MAX: u8 = 100;

/// The score between interactive threads, which sleep more than they run, and the others.
pub const SCHED_INTERACT_HALF: u8 = SCHED_INTERACT_MAX / 2;

// One side of a history in fiftieths of the other, longer one.
fn share(part: u64, whole: u64) -> u8
    requires { part < whole }
    ensures number { result ≡ share_of part whole }
    ensures at_most { result ≤ 98 }
{
    let fiftieth = (whole / u64::from(SCHED_INTERACT_HALF)).max(1);
    (part / fiftieth) as u8
}

/// The interactivity score of a thread with this history, 0..=100, and the lower the more it
/// sleeps: a thread whose score is below the `threshold`, 1..=100, is interactive.
///
/// A thread that sleeps more than it runs scores its run time in fiftieths of its sleep time, and
/// one that runs more scores 100 less its sleep time in fiftieths of its run time. One that does
/// both alike scores 50, or 0 where it did neither. At a threshold of up to 50 every thread that
/// runs no less than it sleeps scores 50 at once, a new thread too, since it can't be interactive.
///
/// After `sched_interact_score`, with the same numbers; the threshold is the sysctl `interact`.
#[tactic(auto, unfolding(crate::specs::Score::score_of))]
pub fn score(h: History, threshold: u8) -> u8
    requires least { 1 ≤ threshold }
    requires greatest { threshold ≤ 100 }
    requires in_range { h.run + h.slept < 2 ^ 63 }
    ensures number { result ≡ score_of h threshold }
    ensures at_most { result ≤ 100 }
{
    if threshold <= SCHED_INTERACT_HALF && h.run >= h.slept {
        SCHED_INTERACT_HALF
    } else if h.run > h.slept {
        SCHED_INTERACT_MAX - share(h.slept, h.run)
    } else if h.slept > h.run {
        share(h.run, h.slept)
    } else if h.run != 0 {
        SCHED_INTERACT_HALF
    } else {
        0
    }
}

/// The law of the interactivity score: it is at most 100 at every history and every threshold, and
/// what it takes from 100 is at most 98, so that it never falls short of 0. It does nothing when
/// it runs.
pub fn score_is_bounded()
    ensures score { ScoreIsBounded }
    ensures share { ShareIsBounded }
{}
