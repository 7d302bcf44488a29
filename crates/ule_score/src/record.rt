use ule_history::{CpuUse, History};
use ule_prio::{Class, Cpu, Nice, Priority, ThreadId};

/// What the scheduler knows of one thread, after `struct thread` and `struct td_sched`. Times are
/// in hz ticks since the boot; `KeepsBounds` of the specs says which bounds every record keeps.
#[derive(Clone, Copy)]
pub struct ThreadRecord {
    // The widest fields come first, so that no gap lies between two of them: records are copied.
    /// Its run and sleep history.
    pub hist: History,
    /// Its CPU use.
    pub usage: CpuUse,
    /// When it went to sleep, or 0.
    pub slept_at: u64,
    /// When it last ran.
    pub last_run: u64,
    /// The stathz ticks that it has used of its slice, 0..=1000.
    pub slice_count: u16,
    pub id: ThreadId,
    /// The thread that forked it, if one did.
    pub parent: Option<ThreadId>,
    pub class: Class,
    /// Its nice value; a thread outside the timeshare class is declared with 0.
    pub nice: Nice,
    /// Its own priority, before any that is lent to it.
    pub base: Priority,
    /// A priority that was lent to it, as by a thread that waits for it at a turnstile.
    pub lent: Option<Priority>,
    /// The better of `base` and `lent`: the priority that it is queued and compared by.
    pub priority: Priority,
    /// The CPU that it was last queued on.
    pub last: Cpu,
    /// The CPU that it is bound to, if any.
    pub bound: Option<Cpu>,
}

/// The sysctls of the scheduler.
#[derive(Clone, Copy)]
pub struct Settings {
    /// `interact`: the score below which a thread is interactive, 1..=100.
    pub interact: u8,
    /// `slice`: the stathz ticks of a full slice, 6..=1000.
    pub slice: u16,
    /// `preempt_thresh`: the worst priority that preempts at once, 0..=255.
    pub preempt: u8,
    /// `steal_thresh`: the least load that is stolen from, 1..=64.
    pub steal: u8,
}

/// The numbers of one CPU, after `struct tdq`.
#[derive(Clone, Copy, PartialEq, Eq)]
pub struct CpuLine {
    /// The insertion index of the calendar, 0..=63, after `tdq_idx`.
    pub idx: u8,
    /// The removal index of the calendar, 0..=63, after `tdq_ridx`.
    pub ridx: u8,
    /// The mark that asks for a switch, after `TDF_NEEDRESCHED`.
    pub resched: bool,
    /// The mark that the current thread's slice has ended, after `TDF_SLICEEND`.
    pub slice_end: bool,
    /// The switches since the last tick, after `tdq_switchcnt`, which a tick sets to the load.
    pub switches: u64,
    /// The switches before that tick, after `tdq_oldswitchcnt`.
    pub old_switches: u64,
    /// The stathz ticks until CPU 0 balances, after `balance_ticks`; 0 on every other CPU.
    pub balance: u64,
}

/// Why a CPU switches threads.
#[derive(Clone, Copy, PartialEq, Eq)]
pub enum Why {
    /// The current thread gives way of its own accord.
    Yield,
    /// The mark that asks for a switch is honoured.
    Resched,
}

/// A change of a record that can move its priority.
#[derive(Clone, Copy)]
pub enum Change {
    /// A priority is lent to it, after `sched_lend_prio`.
    Lend(Priority),
    /// The lent priority is taken back, after `sched_unlend_prio`.
    Unlend,
    /// Its nice value is set, after `sched_nice`.
    Renice(Nice),
    /// It is charged with an exited child's run time, shifted by 10 bits, after `sched_exit`.
    Inherit(u64),
}

/// What a change came to.
#[derive(Clone, Copy)]
pub struct Changed {
    /// The priority after the change.
    pub priority: Priority,
    /// Whether it was queued and moved to a better bucket.
    pub requeued: bool,
    /// Whether the preemption test was made and said yes.
    pub marked: bool,
}
