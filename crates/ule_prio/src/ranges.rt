//! The ranges of priorities, after `priority.h` and `sched_ule.c`.

/// The best priority of an interrupt thread.
pub const PRI_MIN_ITHD: u8 = 0;

/// The worst priority of an interrupt thread.
pub const PRI_MAX_ITHD: u8 = 47;

/// The best priority of a realtime thread.
pub const PRI_MIN_REALTIME: u8 = 48;

/// The worst priority of a realtime thread.
pub const PRI_MAX_REALTIME: u8 = 79;

/// The best priority of a thread in the kernel; no class has a base priority in 80..=119.
pub const PRI_MIN_KERN: u8 = 80;

/// The best priority of a timeshare thread, and of an interactive one.
pub const PRI_MIN_TIMESHARE: u8 = 120;

/// The worst priority of an interactive thread.
pub const PRI_MAX_INTERACT: u8 = 151;

/// The best priority of a batch thread, which is a timeshare thread that waits in the calendar.
pub const PRI_MIN_BATCH: u8 = 152;

/// The worst priority of a batch thread, and of a timeshare one.
pub const PRI_MAX_BATCH: u8 = 223;

/// The best priority of an idle thread.
pub const PRI_MIN_IDLE: u8 = 224;

/// The worst priority of all. A CPU without a current thread counts as running at it.
pub const PRI_MAX_IDLE: u8 = 255;
