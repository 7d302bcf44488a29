//! What an entry changed in the records of threads and in the numbers of CPUs.
use crate::view::Scene;
use std::io::Result;
use ule_history::{CpuUse, History};
use ule_prio::{Class, Priority};
use ule_score::{CpuLine, Settings, score, ts_priority};
use ule_types::ThreadLine;

/// Above each run and sleep time, in 1024ths of an hz tick.
const LONG: u64 = 1 << 62;

/// Prints a line for each thread and each CPU whose numbers changed.
pub fn tell_changes(rt: &impl Print, scene: &Scene) -> Result<()> {
    for new in scene.after.lines.threads() {
        if let Some(old) = scene.before.thread(new.id) {
            tell_thread(rt, old, new)?;
            if new.class == Class::Ts && is_rebased(old, new) {
                tell_score(rt, &scene.settings, new)?;
            }
        }
    }
    let (old, new) = (scene.before.lines.cpus(), scene.after.lines.cpus());
    for (number, (old, new)) in old.iter().zip(new).enumerate() {
        tell_cpu(rt, number as u8, old, new)?;
    }
    Ok(())
}

/// Prints what changed of a thread's record.
fn tell_thread(rt: &impl Print, old: &ThreadLine, new: &ThreadLine) -> Result<()> {
    let changes = [
        ("run time", old.run, new.run),
        ("sleep time", old.slept, new.slept),
        ("CPU use", old.ticks, new.ticks),
        ("slice count", old.slice_count, new.slice_count),
        ("asleep since", old.slept_at, new.slept_at),
        ("base", old.base.0 as u64, new.base.0 as u64),
        ("priority", old.priority.0 as u64, new.priority.0 as u64),
    ];
    tell_numbers(rt, "thread", new.id.0, &changes)
}

/// Prints which indexes and marks of a CPU changed.
fn tell_cpu(rt: &impl Print, number: u8, old: &CpuLine, new: &CpuLine) -> Result<()> {
    let changes = [
        ("insertion index", old.idx as u64, new.idx as u64),
        ("removal index", old.ridx as u64, new.ridx as u64),
        ("mark for a switch", old.resched as u64, new.resched as u64),
        ("slice ended", old.slice_end as u64, new.slice_end as u64),
    ];
    tell_numbers(rt, "CPU", number, &changes)
}

/// Prints a line with those numbers that changed, if any did.
fn tell_numbers(rt: &impl Print, what: &str, number: u8, all: &[(&str, u64, u64)]) -> Result<()> {
    let mut begun = false;
    for (name, old, new) in all {
        if *old != *new {
            if !begun {
                print!(rt; "  {what} {number}:")?;
                begun = true;
            }
            print!(rt; " {name} {old} -> {new};")?;
        }
    }
    if begun {
        println!(rt; "")?;
    }
    Ok(())
}

/// Whether a base priority, or what it is computed from, changed.
fn is_rebased(old: &ThreadLine, new: &ThreadLine) -> bool {
    old.base != new.base || old.run != new.run || old.slept != new.slept || old.nice != new.nice
}

/// Prints the score of a timeshare thread with its parts, and the base priority that it leads to.
fn tell_score(rt: &impl Print, settings: &Settings, line: &ThreadLine) -> Result<()> {
    let Some((score, priority)) = rated(settings, line) else {
        return Ok(());
    };
    let (run, slept, nice) = (line.run, line.slept, line.nice.0);
    print!(rt; "    run {run} and slept {slept} give score {score}")?;
    print!(rt; "; by threshold {}, nice {nice}", settings.interact)?;
    let (ticks, from, to) = (line.ticks, line.ftick, line.ltick);
    print!(rt; " and CPU use {ticks} from {from} to {to}")?;
    println!(rt; " that is base {}", priority.0)
}

/// The interactivity score of a thread and its timeshare priority; none where numbers are out of the
/// rules' ranges, which those of a play never are.
fn rated(settings: &Settings, line: &ThreadLine) -> Option<(u8, Priority)> {
    let threshold = settings.interact;
    let (run, slept) = (line.run, line.slept);
    let history = History { run, slept };
    let usage = CpuUse {
        ticks: line.ticks,
        ltick: line.ltick,
        ftick: line.ftick,
    };
    if threshold < 1 || threshold > 100 || run >= LONG || slept >= LONG || line.ftick > line.ltick {
        return None;
    }
    let priority = ts_priority(history, usage, line.nice, threshold);
    Some((score(history, threshold), priority))
}
