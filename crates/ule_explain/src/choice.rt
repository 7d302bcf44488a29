//! Where threads are queued, which one was chosen or moved, who waits on, and why one takes over.
use crate::view::{Scene, View, queue_of};
use std::io::Result;
use ule_prio::ranges::PRI_MAX_IDLE;
use ule_prio::{Cpu, Kind, Priority, ThreadId, preempts};
use ule_score::Place;
use ule_slice::slice;
use ule_types::{Event, MoveWhy, Reply, ThreadLine};

/// Prints what an entry came from, but for the numbers that it changed.
pub fn tell_entry(rt: &impl Print, scene: &Scene) -> Result<()> {
    match scene.entry.event {
        Event::Tick(cpu) => tell_slice(rt, scene, cpu),
        Event::Switch(c, _) | Event::Drop(c, _) | Event::Exit(c) => tell_choice(rt, scene, c),
        Event::Look(Cpu(c)) => tell_seen(rt, scene, c),
        Event::Move(from, _, _) => tell_move(rt, scene, from),
        Event::Land(t, _) => tell_arrival(rt, scene, t),
        Event::Lend(t, _) | Event::Unlend(t) | Event::Renice(t, _) | Event::Inherit(t, _) => {
            match scene.entry.reply {
                Reply::Changed(_, true, _) => tell_arrival(rt, scene, t),
                _ => Ok(()),
            }
        }
        _ => Ok(()),
    }
}

/// Prints what a look saw.
fn tell_seen(rt: &impl Print, scene: &Scene, c: u8) -> Result<()> {
    let Reply::Seen(load, movable, Priority(low)) = scene.entry.reply else {
        return Ok(());
    };
    println!(rt; "  CPU {c}: load {load}, {movable} of it movable, low priority {low}")
}

/// Prints how long a slice is on a CPU.
fn tell_slice(rt: &impl Print, scene: &Scene, cpu: Cpu) -> Result<()> {
    let full = scene.settings.slice;
    match scene.world.queue(cpu) {
        Some(tdq) if 6 <= full && full <= 1000 => {
            let load = tdq.summary().load;
            let ticks = slice(load, full);
            println!(rt; "  at a load of {load} a slice of {full} is {ticks} ticks")
        }
        _ => Ok(()),
    }
}

/// Prints which thread a CPU chose, where that stood, and who waits on there.
fn tell_choice(rt: &impl Print, scene: &Scene, cpu: Cpu) -> Result<()> {
    match scene.entry.reply {
        Reply::Switched(_, Some(t), _)
        | Reply::Dropped(_, Some(t))
        | Reply::Exited(_, Some(t), _, _) => tell_left(rt, scene, t, "is chosen")?,
        Reply::Unmarked => println!(rt; "  no mark asks for a switch")?,
        _ => println!(rt; "  no thread is there to choose")?,
    }
    if let Reply::Switched(Some(ThreadId(out)), _, true) = scene.entry.reply {
        println!(rt; "  thread {out} was preempted, and goes to the head of its bucket")?;
    }
    tell_waiting(rt, scene, cpu)
}

/// Prints what became of a thread, and where it had stood.
fn tell_left(rt: &impl Print, scene: &Scene, t: ThreadId, what: &str) -> Result<()> {
    print!(rt; "  thread {} {what}", t.0)?;
    if let Some(line) = scene.before.thread(t) {
        tell_bucket(rt, scene.before, line, "from")?;
    }
    println!(rt; "")
}

/// Prints who waits on a CPU behind an entry.
fn tell_waiting(rt: &impl Print, scene: &Scene, cpu: Cpu) -> Result<()> {
    for line in scene.after.lines.threads() {
        if queue_of(line.place) == Some(cpu) {
            print!(rt; "  thread {} waits", line.id.0)?;
            tell_bucket(rt, scene.after, line, "in")?;
            print!(rt; "{}", if line.bound.is_some() { ", bound" } else { "" })?;
            let first = is_first(scene, cpu, line.id);
            println!(rt; "{}", if first { ", first there" } else { "" })?;
        }
    }
    Ok(())
}

/// Whether a thread is the first of a calendar, which is moved only where no other can be.
fn is_first(scene: &Scene, cpu: Cpu, t: ThreadId) -> bool {
    matches!(scene.world.queue(cpu), Some(tdq) if tdq.calendar().first() == Some(t))
}

/// Prints which thread was moved, or why none was, and who was passed over.
fn tell_move(rt: &impl Print, scene: &Scene, from: Cpu) -> Result<()> {
    match scene.entry.reply {
        Reply::Moved(t, _, _, _) => {
            tell_left(rt, scene, t, "is moved")?;
            tell_arrival(rt, scene, t)?;
        }
        _ => tell_needs(rt, scene)?,
    }
    tell_waiting(rt, scene, from)
}

/// Prints what a move that was refused, or that follows a refusal, needs.
fn tell_needs(rt: &impl Print, scene: &Scene) -> Result<()> {
    let steal = scene.settings.steal;
    match scene.entry.event {
        Event::Move(_, _, MoveWhy::Steal) => {
            println!(rt; "  a steal needs a load of {steal}, a movable thread and an idle taker")
        }
        _ => println!(rt; "  a balance needs the greater load and a movable thread"),
    }
}

/// Prints where a thread is queued, if it is, and whether it takes over from the current thread there.
fn tell_arrival(rt: &impl Print, scene: &Scene, t: ThreadId) -> Result<()> {
    let Some(line) = scene.after.thread(t) else {
        return Ok(());
    };
    let Some(cpu) = queue_of(line.place) else {
        return Ok(());
    };
    print!(rt; "  thread {} is queued", t.0)?;
    tell_bucket(rt, scene.after, line, "in")?;
    if let Some(old) = scene.before.lines.cpus().get(usize::from(cpu.0)) {
        let (idx, ridx) = (old.idx, old.ridx);
        print!(rt; "; the insertion index was {idx}, the removal index {ridx}")?;
    }
    println!(rt; "")?;
    tell_test(rt, scene, line.priority, cpu)
}

/// Prints the bucket of a queued thread, its position there, and in the calendar how far ahead of the
/// removal index the bucket lies.
fn tell_bucket(rt: &impl Print, view: &View, line: &ThreadLine, how: &str) -> Result<()> {
    if let Place::Queued { kind, bucket, .. } = line.place {
        let queue = match kind {
            Kind::Real => "real",
            Kind::Batch => "batch",
            Kind::Idle => "idle",
        };
        let pos = line.pos;
        print!(rt; " {how} bucket {bucket} of the {queue} queue, position {pos}")?;
    }
    match view.distance(line.id) {
        Some(distance) => print!(rt; ", {distance} ahead of the removal index"),
        None => Ok(()),
    }
}

/// Prints the preemption test of a thread against what is current on a CPU, or against the worst
/// priority where nothing is, asked by the entry's worker.
fn tell_test(rt: &impl Print, scene: &Scene, new: Priority, cpu: Cpu) -> Result<()> {
    let current = match current_on(scene, cpu) {
        Some(line) => line.priority,
        None => Priority(PRI_MAX_IDLE),
    };
    let threshold = scene.settings.preempt;
    let remote = scene.entry.worker != cpu.0;
    let takes = preempts(new, current, remote, threshold);
    let answer = if takes { "yes" } else { "no" };
    let asker = if remote { "another" } else { "its own" };
    print!(rt; "  does it take over: {} against {}", new.0, current.0)?;
    println!(rt; ", asked on {asker} CPU, threshold {threshold}: {answer}")
}

/// The current thread of a CPU.
fn current_on<'a>(scene: &'a Scene, cpu: Cpu) -> Option<&'a ThreadLine> {
    let t = scene.world.queue(cpu)?.current()?;
    scene.after.thread(t)
}
