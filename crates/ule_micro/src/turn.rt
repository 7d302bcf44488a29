use crate::word::Word;
use ule_prio::{LockId, ThreadId};

/// What one turn of a worker did.
#[derive(Clone, Copy, Debug)]
pub enum Turn {
    /// The worker made a step.
    Moved(StepDone),
    /// The lock that the worker wanted to take is held, and nothing changed.
    Lost {
        /// The lock that was wanted.
        lock: LockId,
        /// The worker that holds it.
        holder: u8,
    },
    /// The first read of this thread's word found it blocked, and nothing changed.
    Blocked {
        /// The thread that the worker seeks.
        thread: ThreadId,
    },
    /// The worker's program is at its end, and nothing changed.
    Finished,
}

/// A step of a worker.
#[derive(Clone, Copy, Debug)]
pub enum StepDone {
    /// It read this word of the thread.
    Read(ThreadId, Word),
    /// It took the lock.
    Take(LockId),
    /// It gave the lock back.
    Release(LockId),
    /// Its event took effect as the entry of this number.
    Commit(u32),
    /// It blocked the thread's word.
    Block(ThreadId),
    /// It pointed the thread's word to the lock.
    Point(ThreadId, LockId),
    /// It read this time, in hz ticks.
    Now(u64),
    /// It raised the time by this many hz ticks.
    Advance(u32),
}
