use ule_prio::LockId;

/// The locks that an event is performed under, in rising order.
#[derive(Clone, Copy)]
pub enum HeldLocks {
    /// One lock.
    One(LockId),
    /// Two locks, of which the first has the lower number.
    Two(LockId, LockId),
}

/// An entry of the history: an event that took effect.
#[derive(Clone, Copy)]
pub struct Entry<E, R> {
    /// The worker that performed it.
    pub worker: u8,
    /// The locks that it was performed under.
    pub locks: HeldLocks,
    /// Its time, in hz ticks.
    pub now: u64,
    /// The event.
    pub event: E,
    /// What it answered.
    pub reply: R,
}
