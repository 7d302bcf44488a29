use ule_prio::{LockId, ThreadId};

/// A thread's lock word, after `td_lock`.
#[derive(Clone, Copy, Debug)]
pub enum Word {
    /// The lock of the place where the thread stands.
    Lock(LockId),
    /// The thread is in a worker's hand, and no lock is its own, after `blocked_lock`.
    Blocked,
}

/// What becomes of a thread's word after an event that moves the thread from one lock to another.
#[derive(Clone, Copy)]
pub enum WordChange {
    /// The word is to be blocked, after `thread_lock_block`.
    Block(ThreadId),
    /// The word is to name this lock, after `thread_lock_unblock`.
    Point(ThreadId, LockId),
}
