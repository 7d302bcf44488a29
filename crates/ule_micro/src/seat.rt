use crate::entry::HeldLocks;
use crate::word::WordChange;
use ule_prio::{LockId, ThreadId};

/// How far a worker is on the way to the commit of an event.
#[derive(Clone, Copy)]
pub enum Progress {
    /// Nothing of the event is done: a seeker reads next, any other takes its first lock.
    Open,
    /// A seeker read this lock in the thread's word, and takes it next.
    Named(ThreadId, LockId),
    /// A seeker took the lock that it read, and reads the word again next.
    Taken(ThreadId, LockId),
    /// The second read found another word, and the seeker gives the lock back next.
    Stale(LockId),
    /// The first of two locks is held, and the second is taken next.
    Half(LockId, LockId),
    /// All locks of the event are held, and now is read next.
    Locked(HeldLocks),
    /// Now was read under these locks, and the commit is next.
    Timed(HeldLocks, u64),
}

/// Where a worker stands in its program.
#[derive(Clone, Copy)]
pub enum Phase<E, R> {
    /// The program is at its end.
    Finished,
    /// The present item raises the time.
    Advance(u32),
    /// The present item is an event that is on the way to its commit.
    Event(E, Progress),
    /// The event took effect with this reply at this time, and these locks of it are still held.
    Leaving(R, u64, HeldLocks),
}

/// One worker of the step model.
#[derive(Drop)]
pub struct Seat<O, E, R> {
    /// Its own part, with its program and its hand.
    pub own: O,
    /// The commands of its list that it began.
    pub begun: u32,
    /// The items that it performed.
    pub items: u32,
    /// The hz ticks that it advanced time by.
    pub advanced: u64,
    /// The change of a word that it has yet to store.
    pub pending: Option<WordChange>,
    /// Where it stands.
    pub phase: Phase<E, R>,
}
