//! A command, from its begin to its end.
ghost use Rattle.std.specs.Prelude.{◌≡◌, ℕ, ◌≤◌, List, [], ◌∷◌, Some, None, IfOk, IfErr, OnOk, OnErr};
ghost use Rattle.ule_micro.specs.declared.todo.Todo.TheVariants.{Event};
ghost use Rattle.ule_words.specs.Tells.{IsHolderOf};
ghost use Rattle.ule_smp.specs.Taken.{ActsSo};
ghost use Rattle.ule_smp.specs.Rests.{IsAtRest};
ghost use Rattle.ule_smp.specs.Runs.{CountsEvents, HasRun, IsOneUnder};

use crate::event::{perform_under, run_event};
use std::sync::Wait;
use ule_micro::{HeldLocks, Parts, Todo};
use ule_prio::LockId;
use ule_words::{Busy, Locks, Pass};

/// Runs a command to its end, and answers the last reply, if it made an event.
pub(crate) fn run<R: Wait, P: Parts>(
    rt: &R,
    locks: &Locks<P>,
    p: &mut Pass<P::Own>,
    c: &P::Order,
) -> Option<P::Reply>
    requires table { p.old.table ≡ locks.now.table.shared.table_id }
    requires counts { CountsEvents (P.means locks.now.parts) }
    requires can { (given : List P.Order) × IsAtRest (P.means locks.now.parts) given p.old × (P.means locks.now.parts).valid p.old.worker.number given c.now }
    requires left { (P.means locks.now.parts).charge p.old.worker.number c.now ≤ p.old.worker.allowance }
    ensures run { HasRun (P.means locks.now.parts) c.now p.old result p.new }
    ensures rest { (given : List P.Order) → IsAtRest (P.means locks.now.parts) given p.old → (P.means locks.now.parts).valid p.old.worker.number given c.now → IsAtRest (P.means locks.now.parts) (c.now ∷ given) p.new }
{
    locks.begin(p, c);
    let mut last = None;
    let mut answer = None;
    for _ in rt.forever() {
        match locks.next(p, last) {
            None => return answer,
            Some(Todo::Advance(k)) => {
                locks.advance_now(p, k);
                last = None;
            }
            Some(Todo::Event(e)) => {
                let told = run_event(rt, locks, p, &e);
                last = Some(told);
                answer = Some(told.0);
            }
        }
    }
    unreachable!()
}

/// Runs a command that is one event under this lock, where the lock is free at this try. Else nothing
/// is begun.
pub(crate) fn attempt<P: Parts>(
    locks: &Locks<P>,
    p: &mut Pass<P::Own>,
    l: LockId,
    c: &P::Order,
) -> Result<P::Reply, Busy>
    requires table { p.old.table ≡ locks.now.table.shared.table_id }
    requires counts { CountsEvents (P.means locks.now.parts) }
    requires can { (given : List P.Order) × IsAtRest (P.means locks.now.parts) given p.old × (P.means locks.now.parts).valid p.old.worker.number given c.now }
    requires left { (P.means locks.now.parts).charge p.old.worker.number c.now ≤ p.old.worker.allowance }
    requires one { IsOneUnder (P.means locks.now.parts) l c.now p.old.own }
    ensures run { IfOk result (λ r. HasRun (P.means locks.now.parts) c.now p.old (Some r) p.new) }
    ensures rest { OnOk result ((given : List P.Order) → IsAtRest (P.means locks.now.parts) given p.old → (P.means locks.now.parts).valid p.old.worker.number given c.now → IsAtRest (P.means locks.now.parts) (c.now ∷ given) p.new) }
    ensures acts { IfOk result (λ r. (e : P.Event) → ((P.means locks.now.parts).next ((P.means locks.now.parts).begin p.old.own c.now) None).0 ≡ Some (Event e) → (v : P.Value) × (now : ℕ) × ActsSo (P.means locks.now.parts) p.old.worker.number p.old.worker.hand (v ∷ []) e (r, now)) }
    ensures busy { OnErr result (p.new ≡ p.old) }
    ensures holder { IfErr result (λ b. IsHolderOf (P.means locks.now.parts) p.old.worker l b.holder) }
{
    if let Err(busy) = locks.try_take(p, l) {
        return Err(busy);
    }
    locks.begin(p, c);
    let Some(Todo::Event(e)) = locks.next(p, None) else {
        unreachable!()
    };
    let told = perform_under(locks, p, &e, &HeldLocks::One(l));
    let None = locks.next(p, Some(told)) else {
        unreachable!()
    };
    Ok(told.0)
}
