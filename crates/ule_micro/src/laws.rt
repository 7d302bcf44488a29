//! The laws of what the workers of a scheduler share, of whatever makes the steps: the step model, or
//! running threads.
ghost use Rattle.ule_micro.specs.SharedLaws.{AdvancingAgrees, BlockingAgrees, CommittingAgrees, CommittingMay, PointingAgrees, ReadingAgrees, ReleasingAgrees, TakingAgrees};

use crate::parts::Parts;

/// Each kind of step keeps what the workers share in agreement, and an event whose locks are held
/// may be performed at the time that was read under them. A read of a word changes nothing. Blocking
/// and pointing are after `thread_lock_block` and `thread_lock_unblock`.
pub fn steps_agree<P: Parts>(parts: &P)
    ensures taking { TakingAgrees (P.means parts.now) }
    ensures releasing { ReleasingAgrees (P.means parts.now) }
    ensures blocking { BlockingAgrees (P.means parts.now) }
    ensures pointing { PointingAgrees (P.means parts.now) }
    ensures reading { ReadingAgrees (P.means parts.now) }
    ensures advancing { AdvancingAgrees (P.means parts.now) }
    ensures may { CommittingMay (P.means parts.now) }
    ensures committing { CommittingAgrees (P.means parts.now) }
{}
