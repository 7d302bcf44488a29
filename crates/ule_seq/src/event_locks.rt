ghost use Rattle.std.specs.Prelude.{◌≡◌, ◌<◌, [], ◌∷◌, min, max, IfSome};
ghost use Rattle.std.specs.List.{AllByRecursion};
ghost use Rattle.std.specs.Option.{option_to_list};
ghost use Rattle.ule_model.specs.Events.{locks_of};
ghost use Rattle.ule_model.specs.World as model;
ghost use Rattle.ule_model.specs.WorldValue.{Shows};
ghost use Rattle.ule_seq.specs.Locks.{lock_list};

use crate::world::{World, two_locks};
use ule_prio::LockId;
use ule_types::Event;

/// The locks that an event takes.
#[derive(Clone, Copy)]
pub enum EventLocks {
    /// None: the thread that the event seeks isn't there, or is in a hand.
    Free,
    /// This one.
    One(LockId),
    /// Those of two CPUs, that of the lesser number first.
    Two(LockId, LockId),
}

impl World {
    /// The locks that an event takes where it is performed now, in rising number.
    pub fn locks(&self, e: &Event) -> EventLocks
        ensures locks { (w : model.World) → Shows self.now w → lock_list result ≡ locks_of w e.now }
        ensures within { AllByRecursion (λ l. l < 25) (lock_list result) }
    {
        match two_locks(e) {
            Some((a, b)) => both(a, b),
            None => at_most_one(self.lock_for(e)),
        }
    }
}

/// The locks of two CPUs.
fn both(a: u8, b: u8) -> EventLocks
    requires first { a < 16 }
    requires second { b < 16 }
    ensures locks { lock_list result ≡ min a b ∷ max a b ∷ [] }
    ensures within { AllByRecursion (λ l. l < 25) (lock_list result) }
{
    if a <= b {
        EventLocks::Two(LockId(a), LockId(b))
    } else {
        EventLocks::Two(LockId(b), LockId(a))
    }
}

/// This lock, if there is one.
fn at_most_one(lock: Option<usize>) -> EventLocks
    requires { IfSome lock (λ l. l < 25) }
    ensures locks { lock_list result ≡ option_to_list lock }
    ensures within { AllByRecursion (λ l. l < 25) (lock_list result) }
{
    match lock {
        Some(l) => EventLocks::One(LockId(l as u8)),
        None => EventLocks::Free,
    }
}
