//! What the step model asks of an event and its reply: the rising locks, and the change of a word.
ghost use Rattle.std.specs.Prelude.{◌≡◌, ◌+◌, ◌%◌, Some};
ghost use Rattle.std.specs.Option.{option_map};
ghost use Rattle.ule_model.specs.Events.{locking, queues};
ghost use Rattle.ule_types.specs.Words.{blocks, change_of, moved_by, point, taken_by};
ghost use Rattle.ule_micro.specs.Means.{fixed_by};
ghost use Rattle.ule_parts.specs.Acts.{names_lower_first, needs_of, todo_of, word_change_of};

use crate::lock::{FIRST_CHAIN_LOCK, LIMBO_LOCK};
use ule_micro::{HeldLocks, Todo, WordChange};
use ule_prio::{Cpu, LockId, ThreadId};
use ule_types::{Event, Item, Reply};

/// An item as the step model has it.
pub(crate) fn todo_of(item: Option<Item>) -> Option<Todo<Event>>
    ensures { result ≡ todo_of item }
{
    match item {
        None => None,
        Some(Item::Event(e)) => Some(Todo::Event(e)),
        Some(Item::Advance(k)) => Some(Todo::Advance(k)),
    }
}

/// The lock of a CPU.
fn queue_lock(c: Cpu) -> LockId
    ensures { result ≡ c }
{
    LockId(c.0)
}

/// The lock of the sleep chain of a channel.
fn chain_lock(channel: u16) -> LockId
    ensures { result ≡ 16 + channel % 8 }
{
    LockId(FIRST_CHAIN_LOCK + (channel % 8) as u8)
}

/// The locks of two CPUs, in rising order.
fn rising_locks(a: Cpu, b: Cpu) -> HeldLocks
    ensures { Some result ≡ fixed_by (needs_of (queues a b)) }
{
    if a.0 < b.0 {
        HeldLocks::Two(queue_lock(a), queue_lock(b))
    } else {
        HeldLocks::Two(queue_lock(b), queue_lock(a))
    }
}

/// The rising locks of an event that doesn't seek; none exactly for one that does.
pub(crate) fn fixed_locks(e: &Event) -> Option<HeldLocks>
    ensures { result ≡ fixed_by (needs_of (locking e.now)) }
{
    match *e {
        Event::Tick(c)
        | Event::Switch(c, _)
        | Event::Drop(c, _)
        | Event::Look(c)
        | Event::Land(_, c)
        | Event::Fork(c, _)
        | Event::Exit(c) => Some(HeldLocks::One(queue_lock(c))),
        Event::Bed(_, channel) => Some(HeldLocks::One(chain_lock(channel))),
        Event::Hatch(_) | Event::Return(_) | Event::Bury(_) => Some(HeldLocks::One(LockId(
            LIMBO_LOCK,
        ))),
        Event::Move(a, b, _) => Some(rising_locks(a, b)),
        Event::Wake(_)
        | Event::Lend(..)
        | Event::Unlend(_)
        | Event::Renice(..)
        | Event::Inherit(..) => None,
    }
}

/// Whether of two locks that an event names the first has the lower number; also where it doesn't
/// name two.
pub(crate) fn names_lower_first(e: &Event) -> bool
    ensures { result ≡ names_lower_first (locking e.now) }
{
    match *e {
        Event::Move(a, b, _) => a.0 < b.0,
        Event::Tick(_)
        | Event::Switch(..)
        | Event::Drop(..)
        | Event::Bed(..)
        | Event::Wake(_)
        | Event::Look(_)
        | Event::Land(..)
        | Event::Lend(..)
        | Event::Unlend(_)
        | Event::Renice(..)
        | Event::Hatch(_)
        | Event::Fork(..)
        | Event::Return(_)
        | Event::Exit(_)
        | Event::Bury(_)
        | Event::Inherit(..) => true,
    }
}

/// What becomes of a thread's word after an event with this reply.
pub(crate) fn word_change(e: &Event, r: &Reply) -> Option<WordChange>
    ensures { result ≡ word_change_of (change_of e.now r.now) }
{
    match *e {
        Event::Drop(..) | Event::Exit(_) => blocked(taken_by(ThreadId(0), r)),
        Event::Wake(t) | Event::Hatch(t) => blocked(taken_by(t, r)),
        Event::Bed(t, channel) => Some(WordChange::Point(t, chain_lock(channel))),
        Event::Land(t, c) => Some(WordChange::Point(t, queue_lock(c))),
        Event::Return(t) | Event::Bury(t) => Some(WordChange::Point(t, LockId(LIMBO_LOCK))),
        Event::Move(_, b, _) => pointed(moved_by(r), queue_lock(b)),
        Event::Tick(_)
        | Event::Switch(..)
        | Event::Look(_)
        | Event::Lend(..)
        | Event::Unlend(_)
        | Event::Renice(..)
        | Event::Fork(..)
        | Event::Inherit(..) => None,
    }
}

/// The word of a thread that was taken into the hand, if one was, is to be blocked.
fn blocked(taken: Option<ThreadId>) -> Option<WordChange>
    ensures { result ≡ word_change_of (blocks taken) }
{
    match taken {
        Some(t) => Some(WordChange::Block(t)),
        None => None,
    }
}

/// The word of a thread that was moved, if one was, is to name this lock.
fn pointed(moved: Option<ThreadId>, l: LockId) -> Option<WordChange>
    ensures { result ≡ word_change_of (option_map (λ t. point t l) moved) }
{
    match moved {
        Some(t) => Some(WordChange::Point(t, l)),
        None => None,
    }
}

/// The thread that a reply says went to the worker's hand, where the event sought or named this one.
fn taken_by(t: ThreadId, r: &Reply) -> Option<ThreadId>
    ensures { result ≡ taken_by t r.now }
{
    match *r {
        Reply::Dropped(out, _) | Reply::Exited(out, ..) => Some(out),
        Reply::Woken(..) | Reply::Hatched => Some(t),
        Reply::Ticked(..)
        | Reply::Unmarked
        | Reply::Nothing
        | Reply::Switched(..)
        | Reply::Bedded
        | Reply::NotAsleep(_)
        | Reply::Seen(..)
        | Reply::Landed(..)
        | Reply::Moved(..)
        | Reply::NoneMovable(..)
        | Reply::Changed(..)
        | Reply::NotAllowed(_)
        | Reply::Forked(..)
        | Reply::Returned
        | Reply::Buried
        | Reply::ParentGone => None,
    }
}

/// The thread that a reply says was moved from one CPU to another.
fn moved_by(r: &Reply) -> Option<ThreadId>
    ensures { result ≡ moved_by r.now }
{
    match *r {
        Reply::Moved(t, ..) => Some(t),
        Reply::Ticked(..)
        | Reply::Unmarked
        | Reply::Nothing
        | Reply::Switched(..)
        | Reply::Dropped(..)
        | Reply::Bedded
        | Reply::NotAsleep(_)
        | Reply::Woken(..)
        | Reply::Seen(..)
        | Reply::Landed(..)
        | Reply::NoneMovable(..)
        | Reply::Changed(..)
        | Reply::NotAllowed(_)
        | Reply::Hatched
        | Reply::Forked(..)
        | Reply::Returned
        | Reply::Exited(..)
        | Reply::Buried
        | Reply::ParentGone => None,
    }
}
