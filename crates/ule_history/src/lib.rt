//! What ULE, FreeBSD's thread scheduler, remembers of how each thread used the CPU.
//!
//! A [`History`] says how long a thread ran and how long it slept in the last few seconds; from
//! it the scheduler tells whether the thread is interactive. A [`CpuUse`] says how much CPU time
//! it had in the last ten seconds. The calls here are the rules by which both change, after
//! FreeBSD's `sched_ule.c`: the history update, the fork decay and the CPU-use update.
//!
//! Two things hold throughout and differ from FreeBSD. `hz`, which is a boot-time number there,
//! is 1000, and `stathz` is 127. Times and counts are `u64` and never wrap, where FreeBSD has
//! `int` and `u_int`, which do. All divisions round down, as they do in C.
#![tactic(auto)]

ghost use Rattle.std.specs.Prelude.{◌≡◌, ◌+◌, ◌*◌, ◌^◌, ◌<◌, ◌≤◌};
ghost use Rattle.ule_history.specs.HistoryUpdate.{updated_history, charged_history, rested_history, IsBoundedHistory, HistoryUpdateIsBounded};
ghost use Rattle.ule_history.specs.ForkDecay.{child_history, ForkDecayIsBounded};
ghost use Rattle.ule_history.specs.CpuUseUpdate.{slid_use, updated_use, IsBoundedUse, CpuUseUpdateIsBounded};

/// FreeBSD's `hz`: clock interrupts a second. Time is counted in these, the hz ticks, each a
/// millisecond.
pub const HZ: u64 = 1000;

/// FreeBSD's `stathz`: calls of `sched_clock` a second, the stathz ticks that time slices are
/// counted in.
pub const STATHZ: u64 = 127;

/// By how many bits run time, sleep time and CPU use are shifted to the left: they count 1024ths
/// of an hz tick.
pub const SCHED_TICK_SHIFT: u32 = 10;

/// FreeBSD's `tickincr`: how long a stathz tick is, in hz ticks shifted by 10 bits: 8062.
pub const TICKINCR: u64 = (HZ << SCHED_TICK_SHIFT) / STATHZ;

/// How much time the window of a [`CpuUse`] spans after it was slid, in hz ticks: 10,000, which
/// is ten seconds.
pub const SCHED_TICK_TARG: u64 = HZ * 10;

/// How much time the window of a [`CpuUse`] spans at most, in hz ticks: at 11,000, which is eleven
/// seconds, it is slid.
pub const SCHED_TICK_MAX: u64 = SCHED_TICK_TARG + HZ;

/// The sum of run and sleep time at which a [`History`] is scaled down, in hz ticks shifted by
/// 10 bits: 5,120,000, which is five seconds.
pub const SCHED_SLP_RUN_MAX: u64 = (HZ * 5) << SCHED_TICK_SHIFT;

/// About how much of its parent's [`History`] a child keeps, in hz ticks shifted by 10 bits:
/// 512,000, which is half a second.
pub const SCHED_SLP_RUN_FORK: u64 = (HZ / 2) << SCHED_TICK_SHIFT;

/// How long a thread ran and slept of late: `ts_runtime` and `ts_slptime` of FreeBSD's
/// `struct td_sched`.
///
/// What counts is how the two compare, so both are scaled down together where they grow large. A
/// history that starts at 0 and changes by the calls of this crate keeps a sum of at most
/// 5,120,001.
#[derive(Clone, Copy)]
pub struct History {
    /// The time for which the thread ran, in hz ticks shifted by 10 bits.
    pub run: u64,
    /// The time for which it slept by its own will, in hz ticks shifted by 10 bits.
    pub slept: u64,
}

/// How much CPU time a thread had in a window of about ten seconds: `ts_ticks`, `ts_ltick` and
/// `ts_ftick` of FreeBSD's `struct td_sched`.
///
/// The window goes from `ftick` to `ltick`, so `ftick` is at most `ltick`, and `ticks` is at most
/// 1024 times `ltick`.
#[derive(Clone, Copy)]
pub struct CpuUse {
    /// The time for which the thread ran in the window, in hz ticks shifted by 10 bits.
    pub ticks: u64,
    /// The time of the last update, in hz ticks.
    pub ltick: u64,
    /// The time at which the window begins, in hz ticks.
    pub ftick: u64,
}

// The history update, after `sched_interact_update`.
#[tactic(auto, unfolding(crate::specs::HistoryUpdate::updated_history, crate::specs::HistoryUpdate::capped_history))]
fn update(h: History) -> History
    requires { h.run + h.slept < 2 ^ 63 }
    ensures number { result ≡ updated_history h }
    ensures bounded { IsBoundedHistory result }
{
    let sum = h.run + h.slept;
    if sum < SCHED_SLP_RUN_MAX {
        h
    } else if sum > 2 * SCHED_SLP_RUN_MAX {
        if h.run > h.slept {
            History {
                run: SCHED_SLP_RUN_MAX,
                slept: 1,
            }
        } else {
            History {
                run: 1,
                slept: SCHED_SLP_RUN_MAX,
            }
        }
    } else if sum > SCHED_SLP_RUN_MAX / 5 * 6 {
        History {
            run: h.run / 2,
            slept: h.slept / 2,
        }
    } else {
        History {
            run: h.run / 5 * 4,
            slept: h.slept / 5 * 4,
        }
    }
}

/// The history after the thread ran for `n` more, in hz ticks shifted by 10 bits.
///
/// `run` grows by `n`, and then the history update scales both sides down where their sum is
/// 5,120,000 or more: to four fifths, to half where the sum is above 6,144,000, and where it is
/// above 10,240,000, to 5,120,000 for the longer side and 1 for the other.
///
/// After `sched_interact_update`, which FreeBSD calls where `sched_clock` charges a running thread
/// and where `sched_exit_thread` and `sched_fork` charge a parent. The numbers are FreeBSD's at
/// `hz` 1000.
pub fn charge(h: History, n: u64) -> History
    requires { h.run + h.slept + n < 2 ^ 63 }
    ensures number { result ≡ charged_history h n }
    ensures bounded { IsBoundedHistory result }
{
    update(History {
        run: h.run + n,
        ..h
    })
}

/// The history after the thread slept for `n` more, in hz ticks shifted by 10 bits.
///
/// As [`charge`], but `slept` grows. After `sched_interact_update`, which FreeBSD calls where
/// `sched_wakeup` ends a sleep.
pub fn rested(h: History, n: u64) -> History
    requires { h.run + h.slept + n < 2 ^ 63 }
    ensures number { result ≡ rested_history h n }
    ensures bounded { IsBoundedHistory result }
{
    update(History {
        slept: h.slept + n,
        ..h
    })
}

/// The history that a new thread takes from its parent's: the fork decay.
///
/// A sum of run and sleep time above 512,000, half a second, is brought down near it: both sides
/// are divided by the whole half seconds in their sum. So a child is as interactive as its parent
/// was, but soon shows a character of its own.
///
/// After `sched_interact_fork`, with the same numbers.
#[tactic(auto, unfolding(crate::specs::ForkDecay::child_history, crate::specs::ForkDecay::divided_history))]
pub fn fork_child(h: History) -> History
    requires { h.run + h.slept < 2 ^ 63 }
    ensures number { result ≡ child_history h }
    ensures bounded { IsBoundedHistory result }
{
    let sum = h.run + h.slept;
    if sum > SCHED_SLP_RUN_FORK {
        let ratio = sum / SCHED_SLP_RUN_FORK;
        History {
            run: h.run / ratio,
            slept: h.slept / ratio,
        }
    } else {
        h
    }
}

// The first half of the CPU-use update: makes the window end ten seconds before now where it is
// over, or too long.
#[tactic(auto, unfolding(crate::specs::CpuUseUpdate::slid_use, crate::specs::CpuUseUpdate::windowed_use, crate::specs::CpuUseUpdate::kept_ticks))]
fn slide(u: CpuUse, now: u64) -> CpuUse
    requires bounded { IsBoundedUse u }
    requires later { u.ltick ≤ now }
    ensures number { result ≡ slid_use u now }
    ensures begun { result.ftick ≤ now }
    ensures within { result.ticks ≤ 1024 * u.ltick }
{
    if now - u.ltick >= SCHED_TICK_TARG {
        CpuUse {
            ticks: 0,
            ftick: now - SCHED_TICK_TARG,
            ..u
        }
    } else if now - u.ftick >= SCHED_TICK_MAX {
        let begin = now - SCHED_TICK_TARG;
        // The divisor is above 1000, since the last update was less than 10,000 ticks ago.
        let ticks = u.ticks / (u.ltick - u.ftick) * (u.ltick - begin);
        CpuUse {
            ticks,
            ftick: begin,
            ..u
        }
    } else {
        u
    }
}

/// The CPU use at `now`, a time in hz ticks, of a thread that was `running` since the last update,
/// or was not: the CPU-use update.
///
/// Where the last update was 10,000 ticks ago or more, the window is emptied and begins 10,000
/// ticks ago. Else, where it began 11,000 ticks ago or more, it is slid to begin 10,000 ticks ago,
/// and keeps its mean ticks for what is left of it. Then a running thread gets the ticks since the
/// last update, and `ltick` becomes `now`.
///
/// After `sched_pctcpu_update`, with the same numbers; FreeBSD reads the time itself, and minds
/// that it wraps.
#[tactic(auto, unfolding(crate::specs::CpuUseUpdate::updated_use, crate::specs::CpuUseUpdate::ran_ticks))]
pub fn update_use(u: CpuUse, now: u64, running: bool) -> CpuUse
    requires bounded { IsBoundedUse u }
    requires later { u.ltick ≤ now }
    requires begun { SCHED_TICK_TARG ≤ now }
    requires in_time { now < 2 ^ 40 }
    ensures number { result ≡ updated_use u now running }
    ensures bounded { IsBoundedUse result }
    ensures noted { result.ltick ≡ now }
{
    let slid = slide(u, now);
    let ran = if running {
        (now - u.ltick) << SCHED_TICK_SHIFT
    } else {
        0
    };
    CpuUse {
        ticks: slid.ticks + ran,
        ltick: now,
        ftick: slid.ftick,
    }
}

/// The law of the history update: after it the sum of `run` and `slept` is at most 5,120,001,
/// whatever it was before. It does nothing when it runs.
pub fn history_update_is_bounded()
    ensures { HistoryUpdateIsBounded }
{}

/// The law of the fork decay: a child's sum of `run` and `slept` is below 1,024,000, which is one
/// second, whatever its parent's is. It does nothing when it runs.
pub fn fork_decay_is_bounded()
    ensures { ForkDecayIsBounded }
{}

/// The law of the CPU-use update: after it `ftick` is at most `ltick`, `ticks` at most 1024 times
/// `ltick`, and `ltick` is the time of the update, where the first two held before and time did
/// not fall. It does nothing when it runs.
pub fn cpu_use_update_is_bounded()
    ensures { CpuUseUpdateIsBounded }
{}
