//! The locks of an event, taken in rising number and given back in falling.
ghost use Rattle.std.specs.Prelude.{◌≡◌, ℕ, List, [], Some, None};
ghost use Rattle.ule_micro.specs.Laws.{AreInRisingOrder, AreRising};
ghost use Rattle.ule_words.specs.Workers.{calm, entries_in};
ghost use Rattle.ule_smp.specs.Taken.{AreHeld, Serve, holding};

use crate::seek::take_lock_of;
use std::sync::Wait;
use ule_micro::{HeldLocks, Parts, WordChange};
use ule_words::{Locks, Pass};

/// Takes the locks of an event that the worker asks for.
pub(crate) fn take_locks<R: Wait, P: Parts>(
    rt: &R,
    locks: &Locks<P>,
    p: &mut Pass<P::Own>,
    e: &P::Event,
) -> HeldLocks
    requires table { p.old.table ≡ locks.now.table.shared.table_id }
    requires free { p.old.worker.held ≡ [] }
    requires calm { p.old.worker.pending ≡ None }
    requires asks { (P.means locks.now.parts).asks p.old.worker.number (entries_in p.old.worker.mine) p.old.worker.hand e.now }
    ensures { (held : List (ℕ × P.Value)) × (p.new ≡ record p.old { worker = holding p.old.worker held }) × Serve (P.means locks.now.parts) e.now result held }
{
    let Some(fixed) = locks.fixed(e) else {
        let Some(t) = locks.sought(e) else {
            unreachable!()
        };
        return HeldLocks::One(take_lock_of(rt, locks, p, t));
    };
    take_rising(rt, locks, p, &fixed);
    fixed
}

/// Takes these locks in rising number.
fn take_rising<R: Wait, P: Parts>(rt: &R, locks: &Locks<P>, p: &mut Pass<P::Own>, fixed: &HeldLocks)
    requires table { p.old.table ≡ locks.now.table.shared.table_id }
    requires free { p.old.worker.held ≡ [] }
    requires rising { AreInRisingOrder fixed.now }
    ensures { (held : List (ℕ × P.Value)) × (p.new ≡ record p.old { worker = holding p.old.worker held }) × AreHeld fixed.now held }
{
    match fixed {
        HeldLocks::One(a) => locks.take(rt, p, *a),
        HeldLocks::Two(a, b) => {
            locks.take(rt, p, *a);
            locks.take(rt, p, *b);
        }
    }
}

/// Gives these locks back, which are all that the pass holds.
pub(crate) fn give_back<P: Parts>(locks: &Locks<P>, p: &mut Pass<P::Own>, taken: &HeldLocks)
    requires table { p.old.table ≡ locks.now.table.shared.table_id }
    requires held { AreHeld taken.now p.old.worker.held }
    requires calm { p.old.worker.pending ≡ None }
    ensures { p.new ≡ record p.old { worker = holding p.old.worker [] } }
{
    match taken {
        HeldLocks::One(a) => locks.release(p, *a),
        HeldLocks::Two(a, b) => {
            locks.release(p, *b);
            locks.release(p, *a);
        }
    }
}

/// Stores the change of a thread's word that an event with this reply left pending.
pub(crate) fn settle<P: Parts>(
    locks: &Locks<P>,
    p: &mut Pass<P::Own>,
    e: &P::Event,
    reply: &P::Reply,
)
    requires table { p.old.table ≡ locks.now.table.shared.table_id }
    requires rising { AreRising ((P.means locks.now.parts).needs e.now) }
    requires pending { p.old.worker.pending ≡ (P.means locks.now.parts).change e.now reply.now }
    ensures { p.new ≡ record p.old { worker = calm p.old.worker } }
{
    let Some(change) = locks.change(e, reply) else {
        return;
    };
    store(locks, p, change);
}

/// Stores a change of a thread's word that is pending.
fn store<P: Parts>(locks: &Locks<P>, p: &mut Pass<P::Own>, change: WordChange)
    requires table { p.old.table ≡ locks.now.table.shared.table_id }
    requires pending { p.old.worker.pending ≡ Some change }
    ensures { p.new ≡ record p.old { worker = calm p.old.worker } }
{
    match change {
        WordChange::Block(t) => locks.block(p, t),
        WordChange::Point(t, l) => locks.point(p, t, l),
    }
}
