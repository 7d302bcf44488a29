use ule_prio::{Cpu, Kind};

/// Where a thread stands: in exactly one of these.
#[derive(Clone, Copy, PartialEq, Eq)]
pub enum Place {
    /// It is the current thread of this CPU.
    Running(Cpu),
    /// It waits in a bucket, 0..=63, of one of this CPU's three queues.
    Queued { cpu: Cpu, kind: Kind, bucket: u8 },
    /// It sleeps on this channel, in sleep chain channel mod 8.
    Asleep(u16),
    /// It was declared and not yet forked.
    Unborn,
    /// It has exited and was buried.
    Gone,
    /// It is in the hand of this worker, 0..=15, between two critical sections.
    Hand(u8),
}
