//! Where threads stand in a state of the step model over a setup's scheduler, and the law of such
//! states.
ghost use Rattle.std.specs.Prelude.{◌≡◌, true, length, is_some, Some, None};
ghost use Rattle.std.specs.Option.{option_map};
ghost use Rattle.ule_model.specs.LockValue.{has_under};
ghost use Rattle.ule_model.specs.World.{thread_of};
ghost use Rattle.ule_model.specs.WorldValue.{holder_in};
ghost use Rattle.ule_types.specs.Commands.{is_among};
ghost use Rattle.ule_parts.specs.Workers.{declared_ids_of};
ghost use Rattle.ule_seq.specs.StepStates.{IsLegalSoFar, place_among, place_at, place_under, scheduler_in, world_in};

use crate::lock::{Guarded, LOCKS};
use crate::parts::SchedParts;
use crate::world::holds;
use ule_micro::Micro;
use ule_prio::{LockId, ThreadId};
use ule_score::Place;

/// The law of step states: after whatever turns of the step model over a setup's scheduler, the
/// entries so far are a legal history of the setup's scripts, which keeps the calendar promise, and
/// the values and hands show the world at its end. It does nothing when it runs.
pub fn is_legal_so_far(m: &Micro<SchedParts>)
    ensures { IsLegalSoFar m.now }
{
    m.keeps_agreement();
}

/// The place of a thread whose record is in the value under a lock; none exactly where the value has
/// no record of it.
pub fn place_in(v: &Guarded, t: ThreadId) -> Option<Place>
    ensures place { result ≡ place_under v.now t }
    ensures found { is_some result ≡ has_under v.now t }
{
    v.place_of(t)
}

/// The place of a declared thread: where its record stands under a lock, or the hand of the worker
/// that has it. It is the thread's place in the world to which the entries so far lead.
pub fn place(m: &Micro<SchedParts>, t: ThreadId) -> Place
    requires declared { is_among (declared_ids_of m.now.parts) t ≡ true }
    ensures stands { place_at (scheduler_in m.now) t ≡ Some result }
    ensures world { option_map (λ x. x.place) (thread_of t (world_in m.now).members) ≡ Some result }
{
    // What every state keeps tells the proof that the thread is somewhere.
    m.keeps_agreement();
    is_legal_so_far(m);
    if let Some(place) = place_under_locks(m, t) {
        return place;
    }
    match holder_of(m, t) {
        Some(worker) => Place::Hand(worker),
        None => unreachable!(),
    }
}

/// The place of a thread that is under a lock.
fn place_under_locks(m: &Micro<SchedParts>, t: ThreadId) -> Option<Place>
    ensures { result ≡ place_among m.now.state.values t }
{
    m.keeps_agreement(); // so that the proof knows of a value for each lock
    for l in 0..LOCKS {
        if let Some(place) = place_in(m.value(LockId(l)), t) {
            return Some(place);
        }
    }
    None
}

/// The worker that has a thread in hand, if one has.
fn holder_of(m: &Micro<SchedParts>, t: ThreadId) -> Option<u8>
    ensures { result ≡ holder_in (scheduler_in m.now) t }
{
    let workers = m.workers();
    for worker in 0..workers {
        if holds(m.own(worker).hand.get(), t) {
            return Some(worker);
        }
    }
    None
}
