//! One event of a worker's program.
ghost use Rattle.std.specs.Prelude.{◌≡◌, ◌<◌, [], None};
ghost use Rattle.ule_words.specs.Held.{held_values};
ghost use Rattle.ule_words.specs.Workers.{entries_in};
ghost use Rattle.ule_smp.specs.Taken.{ActsSo, HasPerformed, Serve};

use crate::taken::{give_back, settle, take_locks};
use std::sync::Wait;
use ule_micro::{HeldLocks, Parts};
use ule_words::{Locks, Pass};

/// Takes the locks of an event that the worker asks for, lets it take effect, stores the change of a
/// thread's word, and gives the locks back. It answers the reply and the time.
pub(crate) fn run_event<R: Wait, P: Parts>(
    rt: &R,
    locks: &Locks<P>,
    p: &mut Pass<P::Own>,
    e: &P::Event,
) -> (P::Reply, u64)
    requires table { p.old.table ≡ locks.now.table.shared.table_id }
    requires free { p.old.worker.held ≡ [] }
    requires calm { p.old.worker.pending ≡ None }
    requires left { 0 < p.old.worker.allowance }
    requires asks { (P.means locks.now.parts).asks p.old.worker.number (entries_in p.old.worker.mine) p.old.worker.hand e.now }
    ensures { HasPerformed (P.means locks.now.parts) p.old e.now result p.new }
{
    let taken = take_locks(rt, locks, p, e);
    perform_under(locks, p, e, &taken)
}

/// Lets an event that the worker asks for take effect under these locks, which are the event's and
/// all that the pass holds, stores the change of a thread's word, and gives the locks back.
pub(crate) fn perform_under<P: Parts>(
    locks: &Locks<P>,
    p: &mut Pass<P::Own>,
    e: &P::Event,
    taken: &HeldLocks,
) -> (P::Reply, u64)
    requires table { p.old.table ≡ locks.now.table.shared.table_id }
    requires held { Serve (P.means locks.now.parts) e.now taken.now p.old.worker.held }
    requires calm { p.old.worker.pending ≡ None }
    requires left { 0 < p.old.worker.allowance }
    requires asks { (P.means locks.now.parts).asks p.old.worker.number (entries_in p.old.worker.mine) p.old.worker.hand e.now }
    ensures performed { HasPerformed (P.means locks.now.parts) p.old e.now result p.new }
    ensures acts { ActsSo (P.means locks.now.parts) p.old.worker.number p.old.worker.hand (held_values p.old.worker.held) e.now result }
{
    let now = locks.read_now(p);
    let reply = locks.commit(p, e);
    settle(locks, p, e, &reply);
    give_back(locks, p, taken);
    (reply, now)
}
