//! The lock words and the threads' words, and the steps on them.
ghost use Rattle.std.specs.Prelude.{◌≡◌, ◌≢◌, ℕ, ◌+◌, ◌≤◌, ◌<◌, [], true, false, List, length, Some, None, OnOk, OnErr, IfErr};
ghost use Rattle.ule_micro.specs.Standings.{asks, has};
ghost use Rattle.ule_micro.specs.declared.todo.Todo.TheVariants.{Advance};
ghost use Rattle.ule_micro.specs.declared.word.Word.TheVariants.{Lock};
ghost use Rattle.ule_micro.specs.declared.word.WordChange.TheVariants.{Block, Point};
ghost use Rattle.ule_words.specs.Held.{is_held, value_held};
ghost use Rattle.ule_words.specs.Programs.{StandsAt};
ghost use Rattle.ule_words.specs.Rule.{thread_word};
ghost use Rattle.ule_words.specs.Tells.{CanCommit, Commits, HasCommitted, IsHolderOf, IsReady, IsWordOf};
ghost use Rattle.ule_words.specs.Workers.{advancing, calm, releasing, taking, timed};

use crate::log::{Log, Numbered};
use crate::pass::Pass;
use crate::perform::perform;
use crate::tape::Tape;
use crate::view::{Board, Deed, NOW, Place, TICKET};
use crossbeam_utils::Backoff;
use std::marker::Brand;
use std::sync::Wait;
use ule_micro::entry::Entry;
use ule_micro::locks::LOCKS;
use ule_micro::{Parts, Word};
use ule_prio::{LockId, ThreadId};

/// The lock words, the threads' words, the ticket, now, and the values of the locks that are free.
#[derive(Drop)]
pub struct Locks<P: Parts> {
    pub(crate) parts: P,
    pub(crate) table: Board<P>,
    /// Room for a tape of the entries of each pass, for the end.
    pub(crate) rack: Log<Tape<Numbered<P::Event, P::Reply>>>,
    ghost same: { table.shared.key ≡ parts },
    ghost racked: { (rack.items ≡ []) × (255 ≤ rack.room) },
    ghost sized: { (table.shared.table_id.words ≡ 283) × (table.shared.table_id.slots ≡ 25) },
}

/// A lock was held.
#[derive(Clone, Copy, Debug)]
pub struct Busy {
    /// The worker that its word named.
    pub holder: u8,
}

impl<P: Parts> Locks<P> {
    /// A thread's word. Where it names a lock that the pass holds, and the pass has no change
    /// pending, the thread stands under that lock, in the value that the pass holds.
    pub fn read_word(&self, p: &mut Pass<P::Own>, t: ThreadId) -> Word
        requires { p.old.table ≡ self.now.table.shared.table_id }
        ensures same { p.new ≡ p.old }
        ensures found { IsWordOf (P.means self.now.parts) p.old.worker t result }
        ensures stands { (l : ℕ) (v : P.Value) → (P.means self.now.parts).declared t ≡ true → p.old.worker.pending ≡ None → result ≡ Lock l → value_held p.old.worker.held l ≡ Some v → (P.means self.now.parts).stands_in v t ≡ true }
    {
        let found = self
            .table
            .shared
            .load::<Brand>(&mut p.seat, LOCKS as usize + t.0 as usize);
        word_in(found)
    }

    /// Takes a lock where it is free, and answers its holder where it isn't. The pass holds at most
    /// one lock before.
    pub fn try_take(&self, p: &mut Pass<P::Own>, l: LockId) -> Result<(), Busy>
        requires table { p.old.table ≡ self.now.table.shared.table_id }
        requires room { length p.old.worker.held < 2 }
        ensures taken { OnOk result ((v : P.Value) × (p.new ≡ record p.old { worker = taking p.old.worker l v }) × (is_held p.old.worker.held l ≡ false)) }
        ensures busy { OnErr result (p.new ≡ p.old) }
        ensures holder { IfErr result (λ b. IsHolderOf (P.means self.now.parts) p.old.worker l b.holder) }
        ensures other { IfErr result (λ b. is_held p.old.worker.held l ≡ false → b.holder ≢ p.old.worker.number) }
    {
        let found = self
            .table
            .shared
            .compare_exchange::<Brand>(&mut p.seat, l.0 as usize, 0, p.number as u64 + 1);
        if found != 0 {
            return Err(Busy {
                holder: (found - 1) as u8,
            });
        }
        let Some(value) = self.table.shared.exchange(&mut p.seat, l.0 as usize, None) else {
            unreachable!()
        };
        p.holding.put(l.0, value);
        Ok(())
    }

    /// Takes a lock, after `thread_lock`: tries, and pauses between two tries, until it is taken. The
    /// pass holds at most one lock before, and not this one.
    pub fn take<R: Wait>(&self, rt: &R, p: &mut Pass<P::Own>, l: LockId)
        requires table { p.old.table ≡ self.now.table.shared.table_id }
        requires room { length p.old.worker.held < 2 }
        requires other { is_held p.old.worker.held l ≡ false }
        ensures { (v : P.Value) × (p.new ≡ record p.old { worker = taking p.old.worker l v }) }
    {
        let backoff = Backoff::new();
        for _ in rt.forever() {
            match self.try_take(p, l) {
                Ok(()) => return,
                Err(_) => backoff.snooze(),
            }
        }
        unreachable!()
    }

    /// Gives a lock back that the pass holds, which has no change pending.
    pub fn release(&self, p: &mut Pass<P::Own>, l: LockId)
        requires table { p.old.table ≡ self.now.table.shared.table_id }
        requires held { is_held p.old.worker.held l ≡ true }
        requires calm { p.old.worker.pending ≡ None }
        ensures { p.new ≡ record p.old { worker = releasing p.old.worker l } }
    {
        let value = p.holding.draw(&mut p.seat, l.0);
        let old = self
            .table
            .shared
            .exchange(&mut p.seat, l.0 as usize, Some(value));
        let None = old else { unreachable!() };
        self.table
            .shared
            .store::<Brand>(&mut p.seat, l.0 as usize, 0);
    }

    /// Blocks a thread's word, as the pass has pending, after `thread_lock_block`.
    pub fn block(&self, p: &mut Pass<P::Own>, t: ThreadId)
        requires table { p.old.table ≡ self.now.table.shared.table_id }
        requires pending { p.old.worker.pending ≡ Some (Block t) }
        ensures { p.new ≡ record p.old { worker = calm p.old.worker } }
    {
        self.table
            .shared
            .store::<Brand>(&mut p.seat, LOCKS as usize + t.0 as usize, 0);
    }

    /// Points a thread's word to a lock, as the pass has pending, after `thread_lock_unblock`.
    pub fn point(&self, p: &mut Pass<P::Own>, t: ThreadId, l: LockId)
        requires table { p.old.table ≡ self.now.table.shared.table_id }
        requires pending { p.old.worker.pending ≡ Some (Point t l) }
        ensures { p.new ≡ record p.old { worker = calm p.old.worker } }
    {
        self.table
            .shared
            .store::<Brand>(&mut p.seat, LOCKS as usize + t.0 as usize, l.0 as u64 + 1);
    }

    /// The time in hz ticks, which the pass keeps for commits under the locks that it holds, until it
    /// takes one, gives one back, or advances now.
    pub fn read_now(&self, p: &mut Pass<P::Own>) -> u64
        requires { p.old.table ≡ self.now.table.shared.table_id }
        ensures { p.new ≡ record p.old { worker = timed p.old.worker result } }
    {
        let now = self.table.shared.load::<Brand>(&mut p.seat, NOW);
        p.time = now;
        now
    }

    /// Advances now by 1 to 1,000,000 hz ticks, and forgets the time that the pass read. It is one of
    /// the pass's items: where it was the next one of its worker's program, the worker then asks for
    /// its next item.
    pub fn advance_now(&self, p: &mut Pass<P::Own>, k: u32)
        requires table { p.old.table ≡ self.now.table.shared.table_id }
        requires some { 1 ≤ k }
        requires few { k ≤ 1000000 }
        requires left { 0 < p.old.worker.allowance }
        ensures pass { p.new ≡ record p.old { worker = advancing p.old.worker k } }
        ensures stands { (given : List P.Order) → StandsAt (P.means self.now.parts) given p.old (has (Advance k)) → StandsAt (P.means self.now.parts) given p.new (asks None) × ((P.means self.now.parts).left p.new.own (asks None) + 1 ≤ (P.means self.now.parts).left p.old.own (has (Advance k))) }
    {
        self.table
            .shared
            .fetch_add::<Brand>(&mut p.seat, NOW, k as u64);
        p.allowance -= 1;
    }
}

impl<P: Parts> Locks<P> {
    /// Raises the ticket by one for an event, and answers what it was.
    fn raise<D: Deed<P::Event>>(&self, seat: &mut Place<P::Own>, e: &P::Event) -> u64
        requires table { seat.old.table_id ≡ self.now.table.shared.table_id }
        requires event { D.event ≡ Some e.now }
        requires can { IsReady (P.means self.now.parts) seat.old.me e.now }
        ensures place { (seat.new.table_id ≡ seat.old.table_id) × (seat.new.id ≡ seat.old.id) }
        ensures done { Commits (P.means self.now.parts) e.now seat.old.me result seat.new.me }
    {
        self.table.shared.fetch_add::<Brand>(seat, TICKET, 1)
    }

    /// Lets an event take effect, on the pass's hand and on the values under the locks that it holds,
    /// which are all of the event, and answers its reply. The time is the one that the pass read under
    /// these locks. It raises the ticket, and its entry goes to the pass's list. It is one of the pass's
    /// items: where it was the next one of its worker's program, the worker then asks for its next
    /// item, and tells the reply and the time.
    pub fn commit(&self, p: &mut Pass<P::Own>, e: &P::Event) -> P::Reply
        requires table { p.old.table ≡ self.now.table.shared.table_id }
        requires can { (locks : _) × (now : ℕ) × CanCommit (P.means self.now.parts) p.old.worker e.now locks now }
        ensures { HasCommitted (P.means self.now.parts) p.old e.now result p.new }
    {
        let number = self.raise::<Brand>(&mut p.seat, e) + 1;
        let locks = p.holding.locks();
        let reply = perform(&self.parts, &mut p.own, &mut p.holding, e, p.time);
        p.log.push(Numbered {
            number,
            entry: Entry {
                worker: p.number,
                locks,
                now: p.time,
                event: *e,
                reply,
            },
        });
        p.allowance -= 1;
        reply
    }
}

/// The word that a number in the table means.
fn word_in(found: u64) -> Word
    requires { found ≤ LOCKS }
    ensures { thread_word result ≡ found }
{
    if found == 0 {
        return Word::Blocked;
    }
    Word::Lock(LockId((found - 1) as u8))
}
