//! One thread and two locks: the thread leaves a queue for a worker's hand, and comes to a sleep
//! chain, and the other way round.
ghost use Rattle.std.specs.Prelude.{◌≡◌, Some, None, if◌then◌else◌};
ghost use Rattle.ule_micro.specs.declared.todo.Todo.TheVariants as todo;
ghost use Rattle.ule_micro_rows.specs.Nap.{acted, nap_item, napper, nap_stage_after, stands_here, told_left};

use crate::ends::End;
use std::alloc::Global;
use ule_io::Memory;
use ule_micro::entry::HeldLocks;
use ule_micro::locks::LIMBO;
use ule_micro::{OwnPart, Parts, Todo, WordChange};
use ule_prio::{LockId, ThreadId};

/// The lock of the queue.
pub const QUEUE: LockId = LockId(0);

/// The lock of the sleep chain.
pub const CHAIN: LockId = LockId(16);

/// What stands under a lock.
#[derive(Clone, Copy, Debug)]
pub enum Spot {
    /// No thread.
    Empty,
    /// The thread, awake.
    Awake,
    /// The thread, asleep.
    Asleep,
}

/// An event.
#[derive(Clone, Copy)]
pub enum Act {
    /// The thread leaves the queue for the hand.
    Doze,
    /// The thread goes from the hand to the chain.
    Bed,
    /// The thread is sought, and taken into the hand if it sleeps.
    Rouse,
    /// The thread goes from the hand to the queue.
    Land,
}

/// What an event answered.
#[derive(Clone, Copy)]
pub enum Answer {
    /// The thread is in the hand now.
    Left,
    /// Nothing changed.
    Stayed,
    /// The thread is under the lock now.
    Came,
}

/// A command.
#[derive(Clone, Copy)]
pub enum Wish {
    /// Puts the thread to sleep.
    Sleep,
    /// Wakes the thread.
    Wake,
    /// Lets five hz ticks pass.
    Wait,
}

/// The point at which a worker's command waits.
#[derive(Clone, Copy)]
pub enum Stage {
    /// It has no further item.
    Rested,
    /// It was begun.
    Begun(Wish),
    /// It waits for the reply of a doze.
    Dozed,
    /// It waits for the reply of a rouse.
    Roused,
}

/// A worker's own part.
#[derive(Clone, Copy)]
pub struct Napper {
    /// The worker.
    pub number: u8,
    /// Where its command stands.
    pub stage: Stage,
    /// Whether it has the thread in hand.
    pub hand: bool,
}

/// Two workers: one puts the thread to sleep and lets time pass, and the other wakes it.
#[derive(Drop)]
pub struct Nap;

impl OwnPart for Napper {
    type Hand = bool;

    type Value = Spot;

    type Event = Act;

    type Reply = Answer;

    type Order = Wish;

    ghost hand = { λ own. own.hand };

    ghost number = { λ own. own.number };
}

impl Parts for Nap {
    type Hand = bool;

    type Value = Spot;

    type Event = Act;

    type Reply = Answer;

    type Order = Wish;

    type Own = Napper;

    type Ends = End<Act, Answer>;

    ghost use Rattle.ule_micro_rows.specs.Nap.{nap_means, nap_orders, stands_here};
    ghost use Rattle.ule_micro_rows.specs.NapLaws.{nap_lawful, nap_orders_fit, same_hand, same_number};
    ghost use Rattle.ule_micro_rows.specs.Ends.{end_notes, ends_sound};

    ghost means = { λ _. nap_means };

    ghost orders = { λ _. nap_orders };

    ghost notes = { λ _. end_notes stands_here };

    fn workers(&self) -> u8 {
        2
    }

    fn budget(&self, worker: u8) -> u32 {
        if worker == 0 { 3 } else { 2 }
    }

    fn opening(&self, _alloc: Global, l: LockId) -> Result<Spot, Memory> {
        Ok(if l.0 == 0 { Spot::Awake } else { Spot::Empty })
    }

    fn own_at_start(&self, worker: u8) -> Napper {
        Napper {
            number: worker,
            stage: Stage::Rested,
            hand: false,
        }
    }

    fn word_at_start(&self, t: ThreadId) -> LockId {
        if t.0 == 0 { LockId(0) } else { LockId(LIMBO) }
    }

    fn order(&self, worker: u8, k: u32) -> Option<Wish> {
        if worker == 0 {
            return match k {
                1 => Some(Wish::Sleep),
                2 => Some(Wish::Wait),
                _ => None,
            };
        }
        match k {
            1 => Some(Wish::Wake),
            _ => None,
        }
    }

    fn begin(&self, own: &mut Napper, c: &Wish) {
        own.stage = Stage::Begun(*c);
    }

    fn next(&self, own: &mut Napper, last: Option<(Answer, u64)>) -> Option<Todo<Act>>
        ensures item { result ≡ nap_item own.old.stage last }
        ensures own { own.new ≡ napper own.old.number (nap_stage_after own.old.stage) own.old.hand }
    {
        let stage = own.stage;
        own.stage = nap_stage_after(stage);
        nap_item(stage, last)
    }

    fn sought(&self, e: &Act) -> Option<ThreadId> {
        match e {
            Act::Rouse => Some(ThreadId(0)),
            Act::Doze | Act::Bed | Act::Land => None,
        }
    }

    fn fixed(&self, e: &Act) -> Option<HeldLocks> {
        match e {
            Act::Rouse => None,
            Act::Doze | Act::Land => Some(HeldLocks::One(LockId(0))),
            Act::Bed => Some(HeldLocks::One(LockId(16))),
        }
    }

    fn step(&self, own: &mut Napper, value: &mut Spot, e: &Act, _now: u64) -> Answer {
        let (hand, spot, answer) = acted(*e, own.hand, *value);
        own.hand = hand;
        *value = spot;
        answer
    }

    fn step_pair(
        &self,
        _own: &mut Napper,
        _first: &mut Spot,
        _second: &mut Spot,
        _e: &Act,
        _now: u64,
    ) -> Answer {
        Answer::Stayed
    }

    fn change(&self, e: &Act, r: &Answer) -> Option<WordChange> {
        match (e, r) {
            (_, Answer::Left) => Some(WordChange::Block(ThreadId(0))),
            (Act::Bed, Answer::Came) => Some(WordChange::Point(ThreadId(0), LockId(16))),
            (Act::Land, Answer::Came) => Some(WordChange::Point(ThreadId(0), LockId(0))),
            (_, Answer::Stayed | Answer::Came) => None,
        }
    }

    fn note_entry(&self, out: &mut End<Act, Answer>, worker: u8, now: u64, e: &Act, r: &Answer) {
        out.note_entry(worker, now, *e, *r);
    }

    fn note_value(&self, out: &mut End<Act, Answer>, l: LockId, v: &Spot) {
        out.note_value(l, stands_here(v));
    }

    fn note_word(&self, out: &mut End<Act, Answer>, t: ThreadId, w: Option<LockId>) {
        out.note_word(t, w);
    }

    fn note_now(&self, out: &mut End<Act, Answer>, now: u64) {
        out.note_now(now);
    }

    ghost same_hand = { λ _. same_hand };

    ghost same_number = { λ _. same_number };

    ghost sound = { λ _. ends_sound stands_here };

    ghost lawful = { λ _. nap_lawful };

    ghost are_orders = { λ _. nap_orders_fit };
}

/// The hand, what stands under the lock, and the answer, after an event.
fn acted(e: Act, hand: bool, spot: Spot) -> (bool, Spot, Answer)
    ensures { result ≡ acted e hand spot }
{
    match (e, spot) {
        (Act::Doze, Spot::Awake) => (true, Spot::Empty, Answer::Left),
        (Act::Doze, Spot::Empty | Spot::Asleep) => (hand, spot, Answer::Stayed),
        (Act::Bed, _) => (false, Spot::Asleep, Answer::Came),
        (Act::Rouse, Spot::Asleep) => (true, Spot::Empty, Answer::Left),
        (Act::Rouse, Spot::Empty | Spot::Awake) => (hand, spot, Answer::Stayed),
        (Act::Land, _) => (false, Spot::Awake, Answer::Came),
    }
}

/// Where a command stands once its next item was given.
fn nap_stage_after(stage: Stage) -> Stage
    ensures { result ≡ nap_stage_after stage }
{
    match stage {
        Stage::Rested | Stage::Dozed | Stage::Roused => Stage::Rested,
        Stage::Begun(Wish::Sleep) => Stage::Dozed,
        Stage::Begun(Wish::Wake) => Stage::Roused,
        Stage::Begun(Wish::Wait) => Stage::Rested,
    }
}

/// The next item of a command that stands there.
fn nap_item(stage: Stage, last: Option<(Answer, u64)>) -> Option<Todo<Act>>
    ensures { result ≡ nap_item stage last }
{
    match stage {
        Stage::Rested => None,
        Stage::Begun(Wish::Sleep) => Some(Todo::Event(Act::Doze)),
        Stage::Begun(Wish::Wake) => Some(Todo::Event(Act::Rouse)),
        Stage::Begun(Wish::Wait) => Some(Todo::Advance(5)),
        Stage::Dozed => if_left(last, Act::Bed),
        Stage::Roused => if_left(last, Act::Land),
    }
}

/// This event, if the last one took the thread into the hand.
fn if_left(last: Option<(Answer, u64)>, e: Act) -> Option<Todo<Act>>
    ensures { result ≡ (if told_left last then Some (todo.Event e) else None) }
{
    match last {
        Some((Answer::Left, _)) => Some(Todo::Event(e)),
        Some((Answer::Stayed | Answer::Came, _)) => None,
        None => None,
    }
}

/// Whether the thread stands under a lock with this value.
fn stands_here(v: &Spot) -> bool
    ensures { result ≡ stands_here v.now }
{
    match v {
        Spot::Empty => false,
        Spot::Awake | Spot::Asleep => true,
    }
}
