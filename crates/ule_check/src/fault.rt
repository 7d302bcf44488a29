ghost use Rattle.std.specs.Prelude.{◌≡◌, ◌≤◌, length, min, option_and_then};
ghost use Rattle.ule_check.specs.Ending.{cpu_fault, end_fault, first_cpu_fault, first_thread_fault, thread_fault};
ghost use Rattle.ule_check.specs.Judge.{event_fault, held_fault, reply_fault};
ghost use Rattle.ule_model.specs.Events.{holder_of, sought_by};
ghost use Rattle.ule_model.specs.World as model;
ghost use Rattle.ule_model.specs.WorldValue.{Shows};

use crate::verdicts::{Fault, FinalName};
use ule_prio::{Cpu, ThreadId};
use ule_score::CpuLine;
use ule_seq::{Ready, World};
use ule_types::{Event, Reply, ThreadLine};

/// Another event than the worker's next one.
pub(crate) fn event_fault(due: &Event, found: &Event) -> Option<Fault>
    ensures { result ≡ event_fault due.now found.now }
{
    if *due == *found {
        None
    } else {
        Some(Fault::Event(*due))
    }
}

/// The thread that the event seeks, in another worker's hand.
pub(crate) fn hand_fault(world: &World, worker: u8, event: &Event) -> Option<Fault>
    ensures { (w : model.World) → Shows world.now w → result ≡ held_fault worker (option_and_then (holder_of w.members) (sought_by event.now)) }
{
    match world.ready(worker, event) {
        Ready::Yes => None,
        Ready::InHand(holder) => Some(Fault::Hand(holder)),
    }
}

/// Another reply than that of the sequential scheduler.
pub(crate) fn reply_fault(expected: &Reply, found: &Reply) -> Option<Fault>
    ensures { result ≡ reply_fault expected.now found.now }
{
    if *expected == *found {
        None
    } else {
        Some(Fault::Reply(*expected, *found))
    }
}

/// Another time at the end.
pub(crate) fn end_fault(expected: u64, found: u64) -> Option<Fault>
    ensures { result ≡ end_fault expected found }
{
    if expected == found {
        None
    } else {
        Some(Fault::Final(FinalName::Now))
    }
}

/// Another line of a thread than the one that is expected first.
fn first_thread(line: &ThreadLine, told: &ThreadLine) -> Option<Fault>
    ensures { result ≡ first_thread_fault line.now told.now }
{
    if *line == *told {
        None
    } else {
        Some(Fault::Final(FinalName::Thread(least(line.id, told.id))))
    }
}

fn least(a: ThreadId, b: ThreadId) -> ThreadId
    ensures { result ≡ min a b }
{
    if a.0 <= b.0 { a } else { b }
}

/// The first thread line that differs, is missing, or should not be there.
pub(crate) fn thread_fault(expected: &[ThreadLine], found: &[ThreadLine]) -> Option<Fault>
    ensures { result ≡ thread_fault expected.now found.now }
{
    for i in 0..expected.len() {
        if i >= found.len() {
            return Some(Fault::Final(FinalName::Thread(expected[i].id)));
        }
        if let Some(why) = first_thread(&expected[i], &found[i]) {
            return Some(why);
        }
    }
    if found.len() > expected.len() {
        return Some(Fault::Final(FinalName::Thread(found[expected.len()].id)));
    }
    None
}

/// Another line of a CPU than the one that is expected first.
fn first_cpu(c: Cpu, numbers: &CpuLine, told: &CpuLine) -> Option<Fault>
    ensures { result ≡ first_cpu_fault c numbers.now told.now }
{
    if *numbers == *told {
        None
    } else {
        Some(Fault::Final(FinalName::Cpu(c)))
    }
}

/// The first CPU line that differs, is missing, or should not be there.
pub(crate) fn cpu_fault(expected: &[CpuLine], found: &[CpuLine]) -> Option<Fault>
    requires expected { length expected.now ≤ 16 }
    requires found { length found.now ≤ 16 }
    ensures { result ≡ cpu_fault 0 expected.now found.now }
{
    for i in 0..expected.len() {
        if i >= found.len() {
            return Some(Fault::Final(FinalName::Cpu(Cpu(i as u8))));
        }
        if let Some(why) = first_cpu(Cpu(i as u8), &expected[i], &found[i]) {
            return Some(why);
        }
    }
    if found.len() > expected.len() {
        return Some(Fault::Final(FinalName::Cpu(Cpu(expected.len() as u8))));
    }
    None
}
