//! One thread and two queues: an event under both locks moves the thread from one queue to the
//! other, and another event seeks it.
ghost use Rattle.std.specs.Prelude.{◌≡◌, ◌<◌, ◌-◌, slice_get};
ghost use Rattle.ule_micro_rows.specs.Shift.{again, shift_item, mover};
ghost use Rattle.ule_micro_rows.specs.declared.shift.Point.TheVariants.{Over};

use crate::ends::End;
use std::alloc::Global;
use ule_io::Memory;
use ule_micro::entry::HeldLocks;
use ule_micro::locks::LIMBO;
use ule_micro::{OwnPart, Parts, Todo, WordChange};
use ule_prio::{LockId, ThreadId};

/// How often a move stands in a list in which it stands again and again.
const AGAIN: u32 = 512;

/// An event.
#[derive(Clone, Copy)]
pub enum Move {
    /// Moves the thread from the one of these two queues where it stands to the other. Any numbers
    /// are an event, also such as there is no queue of, but only two that rise and that there are
    /// are ever asked for or performed.
    Shift(u8, u8),
    /// Seeks the thread, and changes nothing.
    Look,
}

/// What an event answered.
#[derive(Clone, Copy)]
pub enum Place {
    /// The thread went to the first queue.
    First,
    /// The thread went to the second queue.
    Second,
    /// Nothing changed.
    Same,
}

/// The point at which a worker's command waits.
#[derive(Clone, Copy)]
pub enum Point {
    /// It has no further item.
    Over,
    /// It was begun, and its event is next.
    Ready(Move),
}

/// A worker's own part. Its hand is always empty.
#[derive(Clone, Copy)]
pub struct Mover {
    /// The worker.
    pub number: u8,
    /// Where its command stands.
    pub point: Point,
    /// Whether it has the thread in hand.
    pub hand: bool,
}

/// Two workers: worker 0 shifts the thread again and again, and worker 1 looks at it, shifts it
/// once, and looks again and again.
#[derive(Drop)]
pub struct Shifts;

impl OwnPart for Mover {
    type Hand = bool;

    type Value = bool;

    type Event = Move;

    type Reply = Place;

    type Order = Move;

    ghost hand = { λ own. own.hand };

    ghost number = { λ own. own.number };
}

impl Parts for Shifts {
    type Hand = bool;

    type Value = bool;

    type Event = Move;

    type Reply = Place;

    type Order = Move;

    type Own = Mover;

    type Ends = End<Move, Place>;

    ghost use Rattle.ule_micro_rows.specs.Shift.{shift_means, shift_orders};
    ghost use Rattle.ule_micro_rows.specs.ShiftLaws.{shift_lawful, shift_orders_fit, same_hand, same_number};
    ghost use Rattle.ule_micro_rows.specs.Ends.{end_notes, ends_sound};

    ghost means = { λ _. shift_means };

    ghost orders = { λ _. shift_orders };

    ghost notes = { λ _. end_notes (λ v. v) };

    fn workers(&self) -> u8 {
        2
    }

    fn budget(&self, worker: u8) -> u32 {
        if worker == 0 { AGAIN } else { AGAIN + 2 }
    }

    fn opening(&self, _alloc: Global, l: LockId) -> Result<bool, Memory> {
        Ok(l.0 == 0)
    }

    fn own_at_start(&self, worker: u8) -> Mover {
        Mover {
            number: worker,
            point: Point::Over,
            hand: false,
        }
    }

    fn word_at_start(&self, t: ThreadId) -> LockId {
        if t.0 == 0 { LockId(0) } else { LockId(LIMBO) }
    }

    fn order(&self, worker: u8, k: u32) -> Option<Move> {
        if worker == 0 {
            return again(Move::Shift(0, 1), k);
        }
        match k {
            1 => Some(Move::Look),
            2 => Some(Move::Shift(0, 1)),
            _ => again(Move::Look, k - 2),
        }
    }

    fn begin(&self, own: &mut Mover, c: &Move) {
        own.point = Point::Ready(*c);
    }

    fn next(&self, own: &mut Mover, _last: Option<(Place, u64)>) -> Option<Todo<Move>>
        ensures item { result ≡ shift_item own.old.point }
        ensures own { own.new ≡ mover own.old.number Over own.old.hand }
    {
        let point = own.point;
        own.point = Point::Over;
        match point {
            Point::Over => None,
            Point::Ready(e) => Some(Todo::Event(e)),
        }
    }

    fn sought(&self, e: &Move) -> Option<ThreadId> {
        match e {
            Move::Look => Some(ThreadId(0)),
            Move::Shift(..) => None,
        }
    }

    fn fixed(&self, e: &Move) -> Option<HeldLocks> {
        match e {
            Move::Look => None,
            Move::Shift(a, b) => Some(HeldLocks::Two(LockId(*a), LockId(*b))),
        }
    }

    fn step(&self, _own: &mut Mover, _value: &mut bool, _e: &Move, _now: u64) -> Place {
        Place::Same
    }

    fn step_pair(
        &self,
        _own: &mut Mover,
        first: &mut bool,
        second: &mut bool,
        _e: &Move,
        _now: u64,
    ) -> Place {
        if *first {
            *first = false;
            *second = true;
            return Place::Second;
        }
        if *second {
            *first = true;
            *second = false;
            return Place::First;
        }
        Place::Same
    }

    fn change(&self, e: &Move, r: &Place) -> Option<WordChange> {
        match (e, r) {
            (Move::Shift(a, _), Place::First) => Some(WordChange::Point(ThreadId(0), LockId(*a))),
            (Move::Shift(_, b), Place::Second) => Some(WordChange::Point(ThreadId(0), LockId(*b))),
            (Move::Shift(..), Place::Same) | (Move::Look, _) => None,
        }
    }

    fn note_entry(&self, out: &mut End<Move, Place>, worker: u8, now: u64, e: &Move, r: &Place) {
        out.note_entry(worker, now, *e, *r);
    }

    fn note_value(&self, out: &mut End<Move, Place>, l: LockId, v: &bool) {
        out.note_value(l, *v);
    }

    fn note_word(&self, out: &mut End<Move, Place>, t: ThreadId, w: Option<LockId>) {
        out.note_word(t, w);
    }

    fn note_now(&self, out: &mut End<Move, Place>, now: u64) {
        out.note_now(now);
    }

    ghost same_hand = { λ _. same_hand };

    ghost same_number = { λ _. same_number };

    ghost sound = { λ _. ends_sound (λ v. v) };

    ghost lawful = { λ _. shift_lawful };

    ghost are_orders = { λ _. shift_orders_fit };
}

/// The k-th command of a list, from 1, in which a move stands again and again.
fn again(e: Move, k: u32) -> Option<Move>
    requires { 0 < k }
    ensures { result ≡ slice_get (again e) (k - 1) }
{
    if k <= AGAIN { Some(e) } else { None }
}
