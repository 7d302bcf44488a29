//! The end of a play: the seats are joined, and the end is told.
ghost use Rattle.std.specs.Prelude.{ℕ, ◌≡◌, ◌<◌, ◌≤◌, ◌∷◌, ◌+◌, length, map, [], List, Some, None, false, slice_index_or};
ghost use Rattle.std.specs.Slots.{slots_items, slots_filled, slots_len, IsFull};
ghost use Rattle.ule_micro.specs.Means.{budgets};
ghost use Rattle.ule_micro.specs.Shared.{Shared};
ghost use Rattle.ule_micro.specs.declared.word.Word.{Word};
ghost use Rattle.ule_words.specs.Ends.{AreBack, AreThreadsWords, Lies, Told, end_noted, list_of, values_noted, words_noted};
ghost use Rattle.ule_words.specs.Workers.{one};

use crate::locks::Locks;
use crate::log::Numbered;
use crate::merge::note_entries;
use crate::pass::{Pass, Passes};
use crate::tape::Tape;
use crate::view::{Gathers, NOW, Place, TICKET};
use atomic_table::Closed;
use std::alloc::Global;
use ule_micro::locks::{LOCKS, THREADS};
use ule_micro::{OwnPart, Parts};
use ule_prio::{LockId, ThreadId};

/// The seat of a pass that holds no lock, and a tape of its entries.
fn into_parts<O: OwnPart + Drop>(pass: Pass<O>) -> (Place<O>, Tape<Numbered<O::Event, O::Reply>>)
where
    O::Value: Drop,
    requires { pass.worker.held ≡ [] }
    ensures table { result.0.table_id ≡ pass.table }
    ensures knows { result.0.me ≡ (one pass.worker, []) }
    ensures tape { result.1 ≡ list_of pass }
{
    let Pass {
        number: _,
        allowance: _,
        time: _,
        own: _,
        holding: _,
        log,
        seat,
    } = pass;
    (seat, Tape::new(log.into_vec()))
}

/// Tells each lock's value, in rising order, and takes it out of its slot.
fn note_values<P: Parts>(
    parts: &P,
    closed: &mut Closed<Option<P::Value>, Global>,
    out: &mut P::Ends,
)
    requires full { IsFull closed.old.slots × (slots_len closed.old.slots ≡ LOCKS) }
    requires values { (vs : List P.Value) × (slots_items closed.old.slots ≡ map (λ v. Some v) vs) × (length vs ≡ LOCKS) }
    ensures noted { (vs : List P.Value) → slots_items closed.old.slots ≡ map (λ v. Some v) vs → out.new ≡ values_noted (P.notes parts.now) 0 vs out.old }
    ensures words { closed.new.words ≡ closed.old.words }
    ensures taken { (k : ℕ) → k < slots_len closed.new.slots → slice_index_or (slots_filled closed.new.slots) k false ≡ false }
{
    let mut l: u8 = 0;
    while l < LOCKS {
        let Some(value) = closed.take(l as usize) else {
            unreachable!()
        };
        parts.note_value(out, LockId(l), &value);
        l += 1;
    }
}

/// The lock that a number in the table names; none where it is 0.
fn lock_in(found: u64) -> Option<LockId>
    requires { found ≤ LOCKS }
    ensures blocked { found ≡ 0 → result ≡ None }
    ensures named { (l : ℕ) → found ≡ l + 1 → result ≡ Some l }
{
    if found == 0 {
        return None;
    }
    Some(LockId((found - 1) as u8))
}

/// Tells each thread's word, in rising order.
fn note_words<P: Parts>(parts: &P, closed: &Closed<Option<P::Value>, Global>, out: &mut P::Ends)
    requires full { IsFull closed.now.words × (slots_len closed.now.words ≡ 283) }
    requires words { (words : ℕ → Word) × AreThreadsWords (slots_items closed.now.words) words }
    ensures { (words : ℕ → Word) → AreThreadsWords (slots_items closed.now.words) words → out.new ≡ words_noted (P.notes parts.now) THREADS words out.old }
{
    let mut t: u16 = 0;
    while t < THREADS {
        let found = closed.word(LOCKS as usize + t as usize);
        parts.note_word(out, ThreadId(t as u8), lock_in(found));
        t += 1;
    }
}

/// Tells the end that lies in the closed table and on the tapes.
fn note_end<P: Parts>(
    parts: &P,
    tapes: &mut Vec<Tape<Numbered<P::Event, P::Reply>>>,
    closed: &mut Closed<Option<P::Value>, Global>,
    out: &mut P::Ends,
)
    requires full { IsFull closed.old.words × IsFull closed.old.slots × (slots_len closed.old.words ≡ 283) × (slots_len closed.old.slots ≡ LOCKS) }
    requires lies { (s : Shared P.Hand P.Value P.Event P.Reply) × Lies (P.means parts.now) s (slots_items closed.old.words) (slots_items closed.old.slots) tapes.old.items }
    requires room { budgets (P.means parts.now).budget (length (P.means parts.now).owns) ≤ (P.notes parts.now).room out.old }
    ensures noted { (s : Shared P.Hand P.Value P.Event P.Reply) → Lies (P.means parts.now) s (slots_items closed.old.words) (slots_items closed.old.slots) tapes.old.items → out.new ≡ end_noted (P.notes parts.now) s out.old }
    ensures taken { (k : ℕ) → k < slots_len closed.new.slots → slice_index_or (slots_filled closed.new.slots) k false ≡ false }
{
    let count = closed.word(TICKET);
    let now = closed.word(NOW);
    note_entries(parts, tapes, count, out);
    note_values(parts, closed, out);
    note_words(parts, closed, out);
    parts.note_now(out, now);
}

/// Takes the locks out.
fn take_out<P: Parts>(locks: &mut Option<Locks<P>>) -> Locks<P>
    requires { (l : _) × (locks.old ≡ Some l) }
    ensures was { locks.old ≡ Some result }
    ensures none { locks.new ≡ None }
{
    let Some(whole) = locks.take() else {
        unreachable!()
    };
    whole
}

impl<P: Parts + Drop> Locks<P> {
    /// Ends a play, with the locks and all passes of one start, each without a lock and without a
    /// pending change: tells the entries in rising number, then each lock's value and each thread's
    /// word in rising order, and now. Nothing is left of the locks and the passes. It takes no memory:
    /// there has to be room for as many entries as the workers' budgets admit together. They are
    /// behind references, since a call that takes by value what it is generic in can't be made yet.
    pub fn close(locks: &mut Option<Locks<P>>, passes: &mut Passes<P>, out: &mut P::Ends)
        requires there { (l : _) × (locks.old ≡ Some l) }
        requires back { (l : _) → locks.old ≡ Some l → AreBack (P.means l.parts) l.table.shared.table_id passes.old.list.items }
        requires room { (l : _) → locks.old ≡ Some l → budgets (P.means l.parts).budget (length (P.means l.parts).owns) ≤ (P.notes l.parts).room out.old }
        ensures none { (locks.new ≡ None) × (passes.new.list.items ≡ []) }
        ensures told { (l : _) → locks.old ≡ Some l → Told (P.means l.parts) (P.notes l.parts) passes.old.list.items out.old out.new }
    {
        let Locks {
            parts,
            table,
            mut rack,
        } = take_out(locks);
        let Some(last) = passes.list.pop() else {
            let mut closed = table.close();
            let mut tapes = rack.into_vec();
            note_end(&parts, &mut tapes, &mut closed, out);
            closed.free();
            return;
        };
        let (mut seat, tape) = into_parts(last);
        rack.push(tape);
        while let Some(pass) = passes.list.pop() {
            let (other, tape) = into_parts(pass);
            rack.push(tape);
            table.shared.join_seat::<Gathers>(&mut seat, other);
        }
        let mut closed = table.close_with(seat);
        let mut tapes = rack.into_vec();
        note_end(&parts, &mut tapes, &mut closed, out);
        closed.free();
    }
}
