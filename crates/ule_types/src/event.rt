use ule_prio::{Cpu, Kind, Nice, Priority, ThreadId};
use ule_score::{Place, Why};

/// Why a thread is moved from one CPU to another.
#[derive(Clone, Copy, PartialEq, Eq)]
pub enum MoveWhy {
    /// The other CPU has nothing to run, after `tdq_idled`.
    Steal,
    /// The other CPU has less to run, after `sched_balance_pair`.
    Balance,
}

/// One critical section of the scheduler.
#[derive(Clone, Copy, PartialEq, Eq)]
pub enum Event {
    /// A stathz tick on this CPU, after `sched_clock`.
    Tick(Cpu),
    /// The CPU chooses what to run next, after `sched_switch`.
    Switch(Cpu, Why),
    /// The current thread leaves this CPU for a sleep channel, after `sched_sleep`.
    Drop(Cpu, u16),
    /// The thread in the worker's hand is put to sleep on a channel, after `sleepq_add`.
    Bed(ThreadId, u16),
    /// The sleeping thread is taken into the worker's hand, after `sched_wakeup`.
    Wake(ThreadId),
    /// The CPU's numbers are read.
    Look(Cpu),
    /// The thread in the worker's hand is queued on this CPU, after `sched_add`.
    Land(ThreadId, Cpu),
    /// A thread of the first CPU is moved to the second, after `tdq_move`.
    Move(Cpu, Cpu, MoveWhy),
    /// A priority is lent, after `sched_lend_prio`.
    Lend(ThreadId, Priority),
    /// The lent priority is taken back, after `sched_unlend_prio`.
    Unlend(ThreadId),
    /// A nice value is set, after `sched_nice`.
    Renice(ThreadId, Nice),
    /// The unborn thread is taken into the worker's hand.
    Hatch(ThreadId),
    /// The current thread of the CPU makes the thread in hand its child, after `sched_fork`.
    Fork(Cpu, ThreadId),
    /// The thread in hand is unborn again, since there was none to fork it.
    Return(ThreadId),
    /// The current thread leaves this CPU for good, after `sched_throw`.
    Exit(Cpu),
    /// The thread in hand is gone.
    Bury(ThreadId),
    /// The thread is charged with an exited child's run time, shifted by 10 bits, after `sched_exit`.
    Inherit(ThreadId, u64),
}

/// What an event answered.
#[derive(Clone, Copy, PartialEq, Eq)]
pub enum Reply {
    /// The current thread; whether a balance is due; whether a slice ended.
    Ticked(Option<ThreadId>, bool, bool),
    /// No switch was asked for.
    Unmarked,
    /// There was no current thread, and for a switch none to choose.
    Nothing,
    /// The thread that left, the thread that runs, whether the first was preempted.
    Switched(Option<ThreadId>, Option<ThreadId>, bool),
    /// The thread that left and the thread that runs.
    Dropped(ThreadId, Option<ThreadId>),
    Bedded,
    /// The thread stands elsewhere.
    NotAsleep(Place),
    /// Its priority, the CPU that it is bound to, its last CPU, the time at which it last ran.
    Woken(Priority, Option<Cpu>, Cpu, u64),
    /// Load, movable count and low priority.
    Seen(u64, u64, Priority),
    /// The kind and bucket that it was queued in; whether the preemption test said yes.
    Landed(Kind, u8, bool),
    /// The thread that was moved, its new kind and bucket; whether the preemption test said yes.
    Moved(ThreadId, Kind, u8, bool),
    /// Load and movable count of the first CPU, load of the second.
    NoneMovable(u64, u64, u64),
    /// The new priority; whether the thread was requeued; whether its CPU was marked.
    Changed(Priority, bool, bool),
    /// The thread is unborn or gone.
    NotAllowed(Place),
    Hatched,
    /// The parent and the child's priority.
    Forked(ThreadId, Priority),
    Returned,
    /// The thread that left, the thread that runs, the parent of the first and its run time.
    Exited(ThreadId, Option<ThreadId>, Option<ThreadId>, u64),
    Buried,
    /// The thread to charge is gone.
    ParentGone,
}

/// One entry of a history.
#[derive(Clone, Copy)]
pub struct Entry {
    /// The worker that performed the event, 0..=15.
    pub worker: u8,
    pub event: Event,
    /// When, in hz ticks since the boot.
    pub now: u64,
    pub reply: Reply,
}

/// One step of a worker's program.
#[derive(Clone, Copy)]
pub enum Item {
    /// This event.
    Event(Event),
    /// Time goes on by so many hz ticks.
    Advance(u32),
}
