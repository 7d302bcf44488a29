ghost use Rattle.std.specs.Prelude.{◌≡◌, ◌↔◌, IsNone, IfSome, IsTrue};
ghost use Rattle.ule_runq.specs.Runq.{times};
ghost use Rattle.ule_runq.specs.Set.{has};
ghost use Rattle.ule_steal.specs.Steal.{plain_pick, batch_pick, first_thread, if_movable, SparesFirst, HasNoMovable};

use ule_calendar::Calendar;
use ule_prio::ThreadId;
use ule_runq::{Runq, ThreadSet};

/// The thread that a real or an idle queue gives: the first movable one in order of bucket and
/// place, or none where the queue has no movable thread. After `runq_steal`.
pub fn pick_plain(q: &Runq, movable: &ThreadSet) -> Option<ThreadId>
    ensures value { result ≡ plain_pick (has movable.now) q.now }
    ensures none { IsNone result ↔ HasNoMovable (has movable.now) q.now }
    ensures found { IfSome result (λ t. times q.now t ≡ 1) }
    ensures movable { IfSome result (λ t. IsTrue (has movable.now t)) }
{
    q.first_allowed(0, movable, None)
}

/// The thread that a batch calendar gives: the first movable one from the removal index on and
/// round to it, but the calendar's first thread only where no other is movable, since its own CPU
/// is about to choose that one. None where the calendar has no movable thread. After
/// `runq_steal_from`, as `tdq_steal` calls it.
pub fn pick_batch(c: &Calendar, movable: &ThreadSet) -> Option<ThreadId>
    ensures value { result ≡ batch_pick (has movable.now) c.now }
    ensures spares { IfSome result (λ t. SparesFirst (has movable.now) c.now t) }
    ensures none { IsNone result ↔ HasNoMovable (has movable.now) c.now.lists }
    ensures found { IfSome result (λ t. times c.now.lists t ≡ 1) }
    ensures movable { IfSome result (λ t. IsTrue (has movable.now t)) }
{
    match c.lists().first_allowed(c.ridx(), movable, c.first()) {
        Some(t) => Some(t),
        None => first_if_movable(c, movable),
    }
}

// The calendar's first thread, if it is movable.
fn first_if_movable(c: &Calendar, movable: &ThreadSet) -> Option<ThreadId>
    ensures { result ≡ if_movable (has movable.now) (first_thread c.now) }
{
    match c.first() {
        Some(t) => if movable.has(t) { Some(t) } else { None },
        None => None,
    }
}
