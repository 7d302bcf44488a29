//! What the step model is generic in: the parts of a scheduler.
use crate::entry::HeldLocks;
use crate::todo::Todo;
use crate::word::WordChange;
use std::alloc::Global;
use ule_io::Memory;
use ule_prio::{LockId, ThreadId};

/// A worker's own part: its program, and what it has in hand between two events.
pub trait OwnPart {
    /// What a worker has in hand between two events.
    type Hand;

    /// The value under a lock.
    type Value;

    /// An event.
    type Event: Copy;

    /// A reply.
    type Reply: Copy;

    /// A command.
    type Order;

    ghost use Rattle.std.specs.Prelude.{ℕ};

    /// What the part has in hand.
    ghost hand: { Self → Self.Hand };

    /// The number of its worker.
    ghost number: { Self → ℕ };
}

/// The parts of a scheduler: the values under its 25 locks, its workers' own parts, its events and
/// its programs. The members without code say what all of it means, and the laws that it keeps.
pub trait Parts {
    ghost use Rattle.std.specs.Prelude.{◌≡◌, ℕ, ◌<◌, ◌∷◌, [], ◌-◌, List, length, slice_get, IfOk, Option, Some};
    ghost use Rattle.ule_micro.specs.Means.{Means, thread_sought_by, fixed_by};
    ghost use Rattle.ule_micro.specs.Laws.{AreOrders, AreRising, IsLawful};
    ghost use Rattle.ule_micro.specs.Notes.{AreSound, Notes};

    /// What a worker has in hand between two events.
    type Hand;

    /// The value under a lock.
    type Value: Drop;

    /// An event.
    type Event: Copy;

    /// A reply.
    type Reply: Copy;

    /// A command.
    type Order: Drop;

    /// A worker's own part.
    type Own: OwnPart<
        Hand = Self::Hand,
        Value = Self::Value,
        Event = Self::Event,
        Reply = Self::Reply,
        Order = Self::Order,
    >
        + Drop;

    /// What a program keeps of the end of a play.
    type Ends;

    /// What all of it means.
    ghost means: { Self → Means Self.Hand Self.Own Self.Value Self.Event Self.Reply Self.Order };

    /// The commands of each worker, one after another.
    ghost orders: { Self → ℕ → List Self.Order };

    /// What is kept of the end of a play.
    ghost notes: { Self → Notes Self.Ends Self.Value Self.Event Self.Reply };

    /// The number of workers.
    fn workers(&self) -> u8
        ensures { result ≡ length (means self.now).owns };

    /// The greatest number of items of a worker that there is. All together are at most 65,536.
    fn budget(&self, worker: u8) -> u32
        requires { worker < length (means self.now).owns }
        ensures { result ≡ (means self.now).budget worker };

    /// The value under a lock at the start.
    fn opening(&self, alloc: Global, l: LockId) -> Result<Self::Value, Memory>
        ensures { IfOk result (λ v. slice_get (means self.now).values l ≡ Some v) };

    /// The own part at the start, with an empty hand, of a worker that there is.
    fn own_at_start(&self, worker: u8) -> Self::Own
        requires { worker < length (means self.now).owns }
        ensures { slice_get (means self.now).owns worker ≡ Some result };

    /// The lock of the place where a thread stands at the start; for a number that no thread has,
    /// limbo.
    fn word_at_start(&self, t: ThreadId) -> LockId
        ensures { result ≡ (means self.now).word t };

    /// The k-th command of a worker that there is, from 1; none exactly where its list has fewer.
    fn order(&self, worker: u8, k: u32) -> Option<Self::Order>
        requires worker { worker < length (means self.now).owns }
        requires from_one { 0 < k }
        ensures { result ≡ slice_get (orders self.now worker) (k - 1) };

    /// Begins a command, behind one that has no further item.
    fn begin(&self, own: &mut Self::Own, c: &Self::Order)
        requires { (means self.now).begins own.old c.now }
        ensures { own.new ≡ (means self.now).begin own.old c.now };

    /// The next item of the command begun last; none exactly where it has no further item. `last`
    /// is the reply and the time of the item given before, if it was an event of this command.
    fn next(
        &self,
        own: &mut Self::Own,
        last: Option<(Self::Reply, u64)>,
    ) -> Option<Todo<Self::Event>>
        requires { (means self.now).goes_on own.old last }
        ensures item { result ≡ ((means self.now).next own.old last).0 }
        ensures own { own.new ≡ ((means self.now).next own.old last).1 };

    /// The thread that a seeking event seeks; none exactly for the others.
    fn sought(&self, e: &Self::Event) -> Option<ThreadId>
        ensures { result ≡ thread_sought_by ((means self.now).needs e.now) };

    /// The rising locks of an event that doesn't seek; none exactly for one that does.
    fn fixed(&self, e: &Self::Event) -> Option<HeldLocks>
        requires { AreRising ((means self.now).needs e.now) }
        ensures { result ≡ fixed_by ((means self.now).needs e.now) };

    /// Performs an event under one lock, on the value there and the worker's hand, at a time in hz
    /// ticks.
    fn step(
        &self,
        own: &mut Self::Own,
        value: &mut Self::Value,
        e: &Self::Event,
        now: u64,
    ) -> Self::Reply
        requires { (means self.now).may ((means self.now).number own.old) e.now now ((means self.now).hand own.old) (value.old ∷ []) }
        ensures own { own.new ≡ (means self.now).with_hand own.old ((means self.now).act ((means self.now).number own.old) e.now now ((means self.now).hand own.old) (value.old ∷ [])).hand }
        ensures value { ((means self.now).act ((means self.now).number own.old) e.now now ((means self.now).hand own.old) (value.old ∷ [])).values ≡ value.new ∷ [] }
        ensures reply { result ≡ ((means self.now).act ((means self.now).number own.old) e.now now ((means self.now).hand own.old) (value.old ∷ [])).reply };

    /// Performs an event under two locks, on the values there, in rising order of their locks, and
    /// the worker's hand, at a time in hz ticks.
    fn step_pair(
        &self,
        own: &mut Self::Own,
        first: &mut Self::Value,
        second: &mut Self::Value,
        e: &Self::Event,
        now: u64,
    ) -> Self::Reply
        requires { (means self.now).may ((means self.now).number own.old) e.now now ((means self.now).hand own.old) (first.old ∷ second.old ∷ []) }
        ensures own { own.new ≡ (means self.now).with_hand own.old ((means self.now).act ((means self.now).number own.old) e.now now ((means self.now).hand own.old) (first.old ∷ second.old ∷ [])).hand }
        ensures values { ((means self.now).act ((means self.now).number own.old) e.now now ((means self.now).hand own.old) (first.old ∷ second.old ∷ [])).values ≡ first.new ∷ second.new ∷ [] }
        ensures reply { result ≡ ((means self.now).act ((means self.now).number own.old) e.now now ((means self.now).hand own.old) (first.old ∷ second.old ∷ [])).reply };

    /// What becomes of a thread's word after an event with this reply; none exactly where no thread
    /// moved from one lock to another.
    fn change(&self, e: &Self::Event, r: &Self::Reply) -> Option<WordChange>
        requires { AreRising ((means self.now).needs e.now) }
        ensures { result ≡ (means self.now).change e.now r.now };

    /// Keeps an entry, for which there is room: one event of a worker, at a time in hz ticks, and its
    /// reply. Entries come in the order of the history.
    fn note_entry(
        &self,
        out: &mut Self::Ends,
        worker: u8,
        now: u64,
        e: &Self::Event,
        r: &Self::Reply,
    )
        requires { 0 < (notes self.now).room out.old }
        ensures { out.new ≡ (notes self.now).entry out.old worker now e.now r.now };

    /// Keeps the value of a lock at the end. Lock 0 may come at any time, each other one behind the
    /// lock before it.
    fn note_value(&self, out: &mut Self::Ends, l: LockId, v: &Self::Value)
        requires { (notes self.now).ready out.old l }
        ensures { out.new ≡ (notes self.now).value out.old l v.now };

    /// Keeps a thread's word at the end: the lock that it names, or none where it is blocked.
    fn note_word(&self, out: &mut Self::Ends, t: ThreadId, w: Option<LockId>)
        ensures { out.new ≡ (notes self.now).word out.old t w };

    /// Keeps the time at the end, in hz ticks.
    fn note_now(&self, out: &mut Self::Ends, now: u64)
        ensures { out.new ≡ (notes self.now).now out.old now };

    /// The own part's hand is that of `OwnPart`.
    ghost same_hand: { (p : Self) (o : Self.Own) → (means p).hand o ≡ Self.Own.hand o };

    /// The own part's number is that of `OwnPart`.
    ghost same_number: { (p : Self) (o : Self.Own) → (means p).number o ≡ Self.Own.number o };

    /// What is kept of the end keeps the room, and gets the values in the order of their locks.
    ghost sound: { (p : Self) → AreSound (notes p) };

    /// The laws: of the start, of what an event moves, of what an own part keeps, of what a worker
    /// asks for, and of when that may be performed.
    ghost lawful: { (p : Self) → IsLawful (means p) };

    /// The lists of commands are within the workers' budgets, and valid one behind the other.
    ghost are_orders: { (p : Self) → AreOrders (means p) (orders p) };
}
