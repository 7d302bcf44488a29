use ule_prio::{Cpu, ThreadId};
use ule_types::{Event, Reply};

/// A final line of a trace.
#[derive(Clone, Copy)]
pub enum FinalName {
    /// The line of this thread.
    Thread(ThreadId),
    /// The line of this CPU.
    Cpu(Cpu),
    /// The line of the time at the end.
    Now,
}

/// Why a trace is not that of a whole legal history.
#[derive(Clone, Copy)]
pub enum Fault {
    /// The entry's worker doesn't exist, or its program has no further event.
    Worker,
    /// The worker's next event is this one.
    Event(Event),
    /// The event seeks a thread in the hand of this worker.
    Hand(u8),
    /// The entry's time breaks one of the three rules of time.
    Now,
    /// The reply that was expected, and the one that was found.
    Reply(Reply, Reply),
    /// The program of this worker, the least of them, has a further event.
    Missing(u8),
    /// The first final line that differs, is missing, or should not be there.
    Final(FinalName),
}

/// What is judged of a trace.
#[derive(Clone, Copy)]
pub enum Verdict {
    /// It is the trace of a whole legal history and its end.
    Legal,
    /// The first fault that stands, with the number of its entry, from 1; behind the last entry
    /// that is the number of entries plus 1.
    Illegal { entry: u32, why: Fault },
}
