ghost use Rattle.std.specs.Prelude.{◌≡◌};
ghost use Rattle.ule_prio.specs.Kind.{kind_at};

use crate::ids::Priority;
use crate::ranges::{PRI_MIN_BATCH, PRI_MIN_IDLE};

/// The three queues of a CPU, after `tdq_runq_add`: one for interrupt, realtime, kernel and
/// interactive priorities, the calendar for batch priorities, and one for idle priorities.
#[derive(Clone, Copy, Debug, PartialEq, Eq)]
pub enum Kind {
    Real,
    Batch,
    Idle,
}

/// The queue in which a thread of this priority waits, after `tdq_runq_add`.
pub fn kind_of(p: Priority) -> Kind
    ensures { result ≡ kind_at p }
{
    if p.0 < PRI_MIN_BATCH {
        Kind::Real
    } else if p.0 < PRI_MIN_IDLE {
        Kind::Batch
    } else {
        Kind::Idle
    }
}
