//! How an event acts on the values under its locks.
ghost use Rattle.std.specs.Prelude.{◌<◌};
ghost use Rattle.ule_micro.specs.Laws.{AreRising};
ghost use Rattle.ule_micro.specs.Performing.{Acts, CanPerform, HasEffect};
ghost use Rattle.ule_micro.specs.declared.entry.HeldLocks.TheVariants.{One, Two};

use crate::entry::HeldLocks;
use crate::parts::Parts;
use crate::seat::{Phase, Seat};
use ule_prio::LockId;

/// Lets an event of a worker take effect under these locks at a time in hz ticks: on the values, on
/// the worker's hand, on its pending change, and on where it stands.
pub(crate) fn act<P: Parts>(
    parts: &P,
    seat: &mut Seat<P::Own, P::Event, P::Reply>,
    values: &mut Vec<P::Value>,
    e: P::Event,
    held: &HeldLocks,
    now: u64,
) -> P::Reply
    requires can { CanPerform (P.means parts.now) seat.old.own values.old.items e now held.now }
    requires rising { AreRising ((P.means parts.now).needs e) }
    requires few { seat.old.items < 65536 }
    ensures { Acts (P.means parts.now) seat.old values.old.items e now held.now seat.new values.new.items result }
{
    let reply = perform(parts, &mut seat.own, values, &e, now, held);
    let pending = parts.change(&e, &reply);
    let phase = Phase::Leaving(reply, now, *held);
    seat.items += 1;
    seat.pending = pending;
    seat.phase = phase;
    reply
}

/// Performs an event under these locks at a time in hz ticks.
fn perform<P: Parts>(
    parts: &P,
    own: &mut P::Own,
    values: &mut Vec<P::Value>,
    e: &P::Event,
    now: u64,
    held: &HeldLocks,
) -> P::Reply
    requires { CanPerform (P.means parts.now) own.old values.old.items e.now now held.now }
    ensures { HasEffect (P.means parts.now) own.old values.old.items e.now now held.now own.new values.new.items result }
{
    match held {
        HeldLocks::One(a) => perform_one(parts, own, values, e, now, *a),
        HeldLocks::Two(a, b) => perform_two(parts, own, values, e, now, *a, *b),
    }
}

/// Performs an event under one lock.
fn perform_one<P: Parts>(
    parts: &P,
    own: &mut P::Own,
    values: &mut Vec<P::Value>,
    e: &P::Event,
    now: u64,
    a: LockId,
) -> P::Reply
    requires { CanPerform (P.means parts.now) own.old values.old.items e.now now (One a) }
    ensures { HasEffect (P.means parts.now) own.old values.old.items e.now now (One a) own.new values.new.items result }
{
    let value = &mut values[a.0 as usize];
    parts.step(own, value, e, now)
}

/// Performs an event under two locks, of which the first has the lower number.
fn perform_two<P: Parts>(
    parts: &P,
    own: &mut P::Own,
    values: &mut Vec<P::Value>,
    e: &P::Event,
    now: u64,
    a: LockId,
    b: LockId,
) -> P::Reply
    requires { CanPerform (P.means parts.now) own.old values.old.items e.now now (Two a b) }
    ensures { HasEffect (P.means parts.now) own.old values.old.items e.now now (Two a b) own.new values.new.items result }
{
    let (low, high) = values.split_at_mut(b.0 as usize);
    let first = &mut low[a.0 as usize];
    let second = &mut high[0];
    parts.step_pair(own, first, second, e, now)
}
