//! The at most two locks that a worker holds, with the values under them.
ghost use Rattle.std.specs.Prelude.{◌≡◌, ◌≢◌, ℕ, ◌<◌, ◌∷◌, [], true, false, Some, None};
ghost use Rattle.ule_words.specs.Held.{held_but, in_rising_order, is_held, locks_of, value_held};
ghost use Rattle.ule_words.specs.Passes.{in_fields, slots_out};

use atomic_table::Seat;
use std::mem;
use ule_micro::HeldLocks;
use ule_prio::LockId;

/// A lock that is held, with the value under it.
#[derive(Drop)]
pub(crate) struct Held<G> {
    pub lock: u8,
    pub value: G,
}

/// The locks that a worker holds.
#[derive(Drop)]
pub(crate) struct Holding<G> {
    /// The lock that was taken last.
    pub last: Option<Held<G>>,
    /// The one that was taken before it.
    pub first: Option<Held<G>>,
}

impl<G> Holding<G> {
    /// Puts in a lock that was taken.
    pub(crate) fn put(&mut self, lock: u8, value: G)
        requires { self.old.first ≡ None }
        ensures last { self.new.last ≡ Some (record { lock = lock; value = value }) }
        ensures first { self.new.first ≡ self.old.last }
    {
        let first = mem::replace(&mut self.last, Some(Held { lock, value }));
        let old = mem::replace(&mut self.first, first);
        let None = old else { unreachable!() };
    }

    /// Whether the lock is the one that was taken last.
    pub(crate) fn is_last(&self, lock: u8) -> bool
        ensures is { result ≡ true → (v : _) × (self.now.last ≡ Some (record { lock = lock; value = v })) }
        ensures is_not { result ≡ false → (h : _) → self.now.last ≡ Some h → h.lock ≢ lock }
    {
        match &self.last {
            Some(held) => held.lock == lock,
            None => false,
        }
    }

    /// Takes a lock's value out, and brings its slot to the front of the seat.
    pub(crate) fn draw<V>(&mut self, seat: &mut Seat<Option<G>, V>, lock: u8) -> G
        requires held { is_held (in_fields self.old) lock ≡ true }
        requires order { self.old.last ≡ None → self.old.first ≡ None }
        requires apart { (x y : _) → self.old.last ≡ Some x → self.old.first ≡ Some y → x.lock ≢ y.lock }
        requires slots { seat.old.me.1 ≡ slots_out (in_fields self.old) }
        ensures value { value_held (in_fields self.old) lock ≡ Some result }
        ensures rest { in_fields self.new ≡ held_but lock (in_fields self.old) }
        ensures none { self.new.first ≡ None }
        ensures seat { (seat.new.table_id ≡ seat.old.table_id) × (seat.new.id ≡ seat.old.id) × (seat.new.me ≡ (seat.old.me.0, (lock, None) ∷ slots_out (held_but lock (in_fields self.old)))) }
    {
        if self.is_last(lock) {
            let first = self.first.take();
            let Some(held) = mem::replace(&mut self.last, first) else {
                unreachable!()
            };
            let Held { lock: _, value } = held;
            return value;
        }
        seat.turn();
        let Some(held) = self.first.take() else {
            unreachable!()
        };
        let Held { lock: _, value } = held;
        value
    }

    /// The value under a lock that is held.
    pub(crate) fn get(&self, lock: u8) -> &G
        requires held { is_held (in_fields self.now) lock ≡ true }
        requires order { self.now.last ≡ None → self.now.first ≡ None }
        ensures { value_held (in_fields self.now) lock ≡ Some result.now }
    {
        if self.is_last(lock) {
            let Some(held) = &self.last else {
                unreachable!()
            };
            return &held.value;
        }
        let Some(held) = &self.first else {
            unreachable!()
        };
        &held.value
    }

    /// The one or two locks that are held, in rising order.
    pub(crate) fn locks(&self) -> HeldLocks
        requires some { (x : _) × (self.now.last ≡ Some x) }
        requires low { (l : ℕ) (v : _) → value_held (in_fields self.now) l ≡ Some v → l < 25 }
        ensures { locks_of (in_fields self.now) ≡ Some result }
    {
        let Some(last) = &self.last else {
            unreachable!()
        };
        match &self.first {
            None => HeldLocks::One(LockId(last.lock)),
            Some(first) => rising(last.lock, first.lock),
        }
    }
}

/// Two locks, the lower one first.
fn rising(a: u8, b: u8) -> HeldLocks
    requires { (a < 25) × (b < 25) }
    ensures { result ≡ in_rising_order a b }
{
    if a < b {
        return HeldLocks::Two(LockId(a), LockId(b));
    }
    HeldLocks::Two(LockId(b), LockId(a))
}
