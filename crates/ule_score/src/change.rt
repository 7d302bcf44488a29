ghost use Rattle.std.specs.Prelude.{◌≡◌, ◌≤◌, ◌<◌, ◌^◌, false, IsTrue};
ghost use Rattle.ule_score.specs.Bounds.{KeepsBounds};
ghost use Rattle.ule_score.specs.Changes.{after_change, after_fork, after_running, after_sleep, after_tick, before_sleep, charged, charged_in, child_of, placed_on, rebased, rested, sliced, used, ChangesAreByNow, ChangesKeepBounds, ChangesKeepNumbers, ChangesLeaveTheNumber};
ghost use Rattle.ule_score.specs.Charges.{HasShortRun};
ghost use Rattle.ule_score.specs.Settings.{are_settings};

use crate::bounds::effective_priority;
use crate::priority::ts_priority;
use crate::record::{Change, Settings, ThreadRecord};
use ule_history::{charge, fork_child, update_use};
use ule_prio::{Class, Cpu, Priority};
use ule_slice::{min_slice, slice};

/// The run time of a stathz tick, in 1024ths of an hz tick: `tickincr` at `hz` 1000 and `stathz`
/// 127.
pub const TICK_LENGTH: u64 = 8062;

/// Notes in a record that its thread has just left the processor at `now`, a time in hz ticks of
/// 20000 or more: it ran since the last CPU-use update, and `last_run` is `now`.
///
/// After `sched_switch`, which updates the CPU use of a timeshare thread alone; here each thread's
/// is kept.
#[inline]
pub fn note_ran(r: &mut ThreadRecord, now: u64)
    requires begun { 20000 ≤ now }
    requires bounded { now < 2 ^ 36 }
    requires bounds { KeepsBounds r.old }
    requires in_time { r.old.usage.ltick ≤ now }
    ensures { r.new ≡ after_running now r.old }
{
    r.usage = update_use(r.usage, now, true);
    r.last_run = now;
}

/// Notes in a record that its thread has just got the processor at `now`, a time in hz ticks of
/// 20000 or more: it did not run since the last CPU-use update. After `sched_switch`.
#[inline]
pub fn note_runs(r: &mut ThreadRecord, now: u64)
    requires begun { 20000 ≤ now }
    requires bounded { now < 2 ^ 36 }
    requires bounds { KeepsBounds r.old }
    requires in_time { r.old.usage.ltick ≤ now }
    ensures { r.new ≡ used false now r.old }
{
    r.usage = update_use(r.usage, now, false);
}

/// The record of a thread that has just left the processor at `now`, as [`note_ran`] notes it.
pub fn after_running(r: ThreadRecord, now: u64) -> ThreadRecord
    requires begun { 20000 ≤ now }
    requires bounded { now < 2 ^ 36 }
    requires bounds { KeepsBounds r }
    requires in_time { r.usage.ltick ≤ now }
    ensures record { result ≡ after_running now r }
    ensures kept { KeepsBounds result }
    ensures noted { result.usage.ltick ≡ now }
{
    ThreadRecord {
        usage: update_use(r.usage, now, true),
        last_run: now,
        ..r
    }
}

/// The record of a thread that has just got the processor at `now`, a time in hz ticks of 20000 or
/// more: it did not run since the last CPU-use update. After `sched_switch`.
pub fn before_running(r: ThreadRecord, now: u64) -> ThreadRecord
    requires begun { 20000 ≤ now }
    requires bounded { now < 2 ^ 36 }
    requires bounds { KeepsBounds r }
    requires in_time { r.usage.ltick ≤ now }
    ensures record { result ≡ used false now r }
    ensures kept { KeepsBounds result }
    ensures noted { result.usage.ltick ≡ now }
{
    ThreadRecord {
        usage: update_use(r.usage, now, false),
        ..r
    }
}

/// The record of a thread that has just left the processor at `now`, a time in hz ticks of 20000
/// or more, to sleep: besides what [`after_running`] does, `slept_at` is `now`.
///
/// After `sched_sleep`, which notes `td_slptick`.
pub fn before_sleep(r: ThreadRecord, now: u64) -> ThreadRecord
    requires begun { 20000 ≤ now }
    requires bounded { now < 2 ^ 36 }
    requires bounds { KeepsBounds r }
    requires in_time { r.usage.ltick ≤ now }
    ensures record { result ≡ before_sleep now r }
    ensures kept { KeepsBounds result }
    ensures noted { result.usage.ltick ≡ now }
{
    ThreadRecord {
        slept_at: now,
        ..after_running(r, now)
    }
}

/// The record of a thread that comes to this CPU, as `sched_add` sets `ts_cpu`.
pub fn placed_on(r: ThreadRecord, cpu: Cpu) -> ThreadRecord
    requires { KeepsBounds r }
    ensures record { result ≡ placed_on cpu r }
    ensures kept { KeepsBounds result }
{
    ThreadRecord { last: cpu, ..r }
}

/// The record with its base priority computed anew where the class is timeshare, and its priority
/// the better of that and what is lent to it; any other class's as it is. After `sched_priority`
/// and `sched_user_prio`.
pub fn rebased(settings: &Settings, r: ThreadRecord) -> ThreadRecord
    requires settings { IsTrue (are_settings settings.now) }
    requires bounds { KeepsBounds r }
    ensures record { result ≡ rebased settings.now r }
    ensures kept { KeepsBounds result }
    ensures number { result.id ≡ r.id }
    ensures usage { result.usage ≡ r.usage }
{
    match r.class {
        Class::Ts => {
            let base = ts_priority(r.hist, r.usage, r.nice, settings.interact);
            let priority = effective_priority(base, r.lent);
            ThreadRecord {
                base,
                priority,
                ..r
            }
        }
        _ => r,
    }
}

/// A record with one tick more of its slice used, and whether that ends the slice.
fn sliced(settings: &Settings, load: u32, r: ThreadRecord) -> (ThreadRecord, bool)
    requires settings { IsTrue (are_settings settings.now) }
    requires bounds { KeepsBounds r }
    ensures record { result ≡ sliced settings.now load r }
    ensures kept { KeepsBounds result.0 }
    ensures number { result.0.id ≡ r.id }
    ensures usage { result.0.usage ≡ r.usage }
{
    let used = r.slice_count + 1;
    if used >= slice(load, settings.slice) {
        (
            ThreadRecord {
                slice_count: 0,
                ..r
            },
            true,
        )
    } else {
        (
            ThreadRecord {
                slice_count: used,
                ..r
            },
            false,
        )
    }
}

/// A record charged with the run time of a tick, and its base priority computed anew.
fn charged(settings: &Settings, r: ThreadRecord) -> ThreadRecord
    requires settings { IsTrue (are_settings settings.now) }
    requires bounds { KeepsBounds r }
    ensures record { result ≡ charged settings.now r }
    ensures kept { KeepsBounds result }
    ensures number { result.id ≡ r.id }
    ensures usage { result.usage ≡ r.usage }
{
    let hist = charge(r.hist, TICK_LENGTH);
    rebased(settings, ThreadRecord { hist, ..r })
}

/// What a tick charges by class: a timeshare thread its run time, each but a Fifo thread its slice.
fn charged_in(settings: &Settings, load: u32, r: ThreadRecord) -> (ThreadRecord, bool)
    requires settings { IsTrue (are_settings settings.now) }
    requires bounds { KeepsBounds r }
    ensures record { result ≡ charged_in r.class settings.now load r }
    ensures kept { KeepsBounds result.0 }
    ensures number { result.0.id ≡ r.id }
    ensures usage { result.0.usage ≡ r.usage }
{
    match r.class {
        Class::Ts => sliced(settings, load, charged(settings, r)),
        Class::Fifo => (r, false),
        _ => sliced(settings, load, r),
    }
}

/// The current thread's record after a stathz tick at `now`, a time in hz ticks of 20000 or more,
/// on a CPU with this `load`; and whether the tick ended its slice, which begins anew then.
///
/// A timeshare thread is charged the run time of a tick, and its base priority is computed anew;
/// each but a Fifo thread has one tick more of its slice used. After `sched_clock`.
pub fn after_tick(settings: &Settings, now: u64, load: u32, r: ThreadRecord) -> (ThreadRecord, bool)
    requires begun { 20000 ≤ now }
    requires bounded { now < 2 ^ 36 }
    requires settings { IsTrue (are_settings settings.now) }
    requires bounds { KeepsBounds r }
    requires in_time { r.usage.ltick ≤ now }
    ensures record { result ≡ after_tick settings.now now load r }
    ensures kept { KeepsBounds result.0 }
    ensures number { result.0.id ≡ r.id }
    ensures noted { result.0.usage.ltick ≡ now }
{
    let usage = update_use(r.usage, now, true);
    charged_in(settings, load, ThreadRecord { usage, ..r })
}

/// A record with the time that its thread slept, if any passed.
fn rested(now: u64, r: ThreadRecord) -> ThreadRecord
    requires begun { 20000 ≤ now }
    requires bounded { now < 2 ^ 36 }
    requires bounds { KeepsBounds r }
    requires in_time { r.usage.ltick ≤ now }
    requires asleep { r.slept_at ≤ now }
    ensures record { result ≡ rested now r }
    ensures kept { KeepsBounds result }
    ensures number { result.id ≡ r.id }
    ensures in_time { result.usage.ltick ≤ now }
{
    if now == r.slept_at {
        return r;
    }
    ThreadRecord {
        hist: ule_history::rested(r.hist, 1024 * (now - r.slept_at)),
        usage: update_use(r.usage, now, false),
        ..r
    }
}

/// The record of a thread that has just been woken at `now`, a time in hz ticks of 20000 or more:
/// where any time passed since `slept_at` it is added to the sleep history and the CPU use is
/// brought up to date; `slept_at` and the slice count are 0, and the base priority is computed
/// anew. After `sched_wakeup`.
pub fn after_sleep(settings: &Settings, now: u64, r: ThreadRecord) -> ThreadRecord
    requires begun { 20000 ≤ now }
    requires bounded { now < 2 ^ 36 }
    requires settings { IsTrue (are_settings settings.now) }
    requires bounds { KeepsBounds r }
    requires in_time { r.usage.ltick ≤ now }
    requires asleep { r.slept_at ≤ now }
    ensures record { result ≡ after_sleep settings.now now r }
    ensures kept { KeepsBounds result }
    ensures number { result.id ≡ r.id }
    ensures in_time { result.usage.ltick ≤ now }
{
    let woken = ThreadRecord {
        slice_count: 0,
        slept_at: 0,
        ..rested(now, r)
    };
    rebased(settings, woken)
}

/// The record after a change that can move its priority: a priority is lent to it or taken back,
/// after `sched_lend_prio` and `sched_unlend_prio`; its nice value is set, after `sched_nice`; or
/// it is charged with the run time of a child that exited, in 1024ths of an hz tick and below
/// 2^62, after `sched_exit_thread`.
pub fn after_change(settings: &Settings, change: Change, r: ThreadRecord) -> ThreadRecord
    requires settings { IsTrue (are_settings settings.now) }
    requires run { HasShortRun change }
    requires bounds { KeepsBounds r }
    ensures record { result ≡ after_change settings.now change r }
    ensures kept { KeepsBounds result }
    ensures number { result.id ≡ r.id }
    ensures usage { result.usage ≡ r.usage }
{
    match change {
        Change::Lend(p) => ThreadRecord {
            lent: Some(p),
            priority: r.base.min(p),
            ..r
        },
        Change::Unlend => ThreadRecord {
            lent: None,
            priority: r.base,
            ..r
        },
        Change::Renice(nice) => rebased(settings, ThreadRecord { nice, ..r }),
        Change::Inherit(run) => {
            let hist = charge(r.hist, run);
            rebased(settings, ThreadRecord { hist, ..r })
        }
    }
}

/// The record of a thread that has just forked a child at `now`, a time in hz ticks of 20000 or
/// more: its CPU use is brought up to date, it is charged the run time of a tick, and its base
/// priority is computed anew. After `sched_fork`.
pub fn after_fork(settings: &Settings, now: u64, r: ThreadRecord) -> ThreadRecord
    requires begun { 20000 ≤ now }
    requires bounded { now < 2 ^ 36 }
    requires settings { IsTrue (are_settings settings.now) }
    requires bounds { KeepsBounds r }
    requires in_time { r.usage.ltick ≤ now }
    ensures record { result ≡ after_fork settings.now now r }
    ensures kept { KeepsBounds result }
    ensures number { result.id ≡ r.id }
    ensures noted { result.usage.ltick ≡ now }
{
    let usage = update_use(r.usage, now, true);
    charged(settings, ThreadRecord { usage, ..r })
}

/// The record of a child that `parent` forked on `cpu`, which has this `load`, at `now`, a time in
/// hz ticks of 20000 or more. It keeps the number of `r` alone.
///
/// Class, nice value and base priority are its parent's, and nothing is lent to it. Its history is
/// its parent's after the fork decay, its CPU use its parent's brought up to date; all of its slice
/// but the least slice is used; it never slept, and it is bound nowhere. Then its base priority is
/// computed anew. After `sched_fork_thread`.
pub fn child_of(
    settings: &Settings,
    now: u64,
    parent: ThreadRecord,
    cpu: Cpu,
    load: u32,
    r: ThreadRecord,
) -> ThreadRecord
    requires begun { 20000 ≤ now }
    requires bounded { now < 2 ^ 36 }
    requires settings { IsTrue (are_settings settings.now) }
    requires bounds { KeepsBounds parent }
    requires in_time { parent.usage.ltick ≤ now }
    ensures record { result ≡ child_of settings.now now parent cpu load r }
    ensures kept { KeepsBounds result }
    ensures number { result.id ≡ r.id }
    ensures noted { result.usage.ltick ≡ now }
{
    let child = ThreadRecord {
        id: r.id,
        parent: Some(parent.id),
        class: parent.class,
        nice: parent.nice,
        base: parent.base,
        lent: None,
        priority: parent.base,
        hist: fork_child(parent.hist),
        usage: update_use(parent.usage, now, true),
        slice_count: slice(load, settings.slice) - min_slice(settings.slice),
        slept_at: 0,
        last: cpu,
        last_run: now,
        bound: None,
    };
    rebased(settings, child)
}

/// The laws of the changes of a record, over every change that an event makes: none changes the
/// thread's number; at a time no earlier than what is noted, a sound one keeps the bounds, and the
/// numbers in range; and what it notes happened by its time. It does nothing when it runs.
pub fn record_changes_keep()
    ensures number { ChangesLeaveTheNumber }
    ensures bounds { ChangesKeepBounds }
    ensures numbers { ChangesKeepNumbers }
    ensures times { ChangesAreByNow }
{}
