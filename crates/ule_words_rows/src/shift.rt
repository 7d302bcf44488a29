//! One thread and two queues: two workers that run at once shift the thread from one queue to the
//! other, each under both locks.
ghost use Rattle.std.specs.Prelude.{◌≡◌, ◌+◌, ◌<◌, ◌≤◌};
ghost use Rattle.ule_micro_rows.specs.Shift.{shift_means, word_change};
ghost use Rattle.ule_micro_rows.specs.declared.shift.Move.TheVariants.{Shift};
ghost use Rattle.ule_words.specs.Ends.{AreBack};
ghost use Rattle.ule_words.specs.Workers.{calm};
ghost use Rattle.ule_words_rows.specs.Shifting.{CanShift, CanShiftOften};

use std::alloc::Global;
use std::sync::Wait;
use std::thread;
use std::thread::Threads;
use ule_io::Memory;
use ule_micro_rows::ends::End;
use ule_micro_rows::shift::{Move, Mover, Place, Shifts};
use ule_prio::{LockId, ThreadId};
use ule_words::{Locks, Pass, Passes, allowance};

/// How often each worker shifts the thread.
const TIMES: u32 = 500;

/// The thread.
const THREAD: ThreadId = ThreadId(0);

/// The two queues.
const FIRST: LockId = LockId(0);

const SECOND: LockId = LockId(1);

/// Stores what an event left pending.
fn store(locks: &Locks<Shifts>, p: &mut Pass<Mover>, reply: Place)
    requires table { p.old.table ≡ locks.now.table.shared.table_id }
    requires pending { p.old.worker.pending ≡ word_change (Shift 0 1) reply }
    ensures { p.new ≡ record p.old { worker = calm p.old.worker } }
{
    match reply {
        Place::First => locks.point(p, THREAD, FIRST),
        Place::Second => locks.point(p, THREAD, SECOND),
        Place::Same => {}
    }
}

/// Shifts the thread once.
fn shift<R: Wait>(rt: &R, locks: &Locks<Shifts>, p: &mut Pass<Mover>)
    requires table { p.old.table ≡ locks.now.table.shared.table_id }
    requires can { CanShift p.old }
    requires left { 0 < p.old.worker.allowance }
    ensures table { p.new.table ≡ p.old.table }
    ensures number { p.new.worker.number ≡ p.old.worker.number }
    ensures can { CanShift p.new }
    ensures left { p.new.worker.allowance + 1 ≡ p.old.worker.allowance }
{
    locks.take(rt, p, FIRST);
    locks.take(rt, p, SECOND);
    locks.read_now(p);
    let reply = locks.commit(p, &Move::Shift(0, 1));
    store(locks, p, reply);
    locks.release(p, SECOND);
    locks.release(p, FIRST);
}

/// Shifts the thread this often.
fn shift_often<R: Wait>(rt: &R, locks: &Locks<Shifts>, p: &mut Pass<Mover>, times: u32)
    requires table { p.old.table ≡ locks.now.table.shared.table_id }
    requires can { CanShift p.old }
    requires left { times ≤ p.old.worker.allowance }
    ensures table { p.new.table ≡ p.old.table }
    ensures number { p.new.worker.number ≡ p.old.worker.number }
    ensures can { CanShift p.new }
    ensures left { p.new.worker.allowance + times ≡ p.old.worker.allowance }
{
    let mut done = 0;
    while done < times {
        shift(rt, locks, p);
        done += 1;
    }
}

/// What a race tells.
#[derive(Drop)]
pub struct Raced {
    /// What was left of each worker's allowance.
    pub left: Vec<u32>,
    /// The end.
    pub end: End<Move, Place>,
}

/// Two workers that run at once, each of which shifts the thread 500 times; then the play is closed.
pub fn race<R: Threads + Wait + Sync>(rt: &R, alloc: Global) -> Result<Raced, Memory> {
    let (locks, passes) = Locks::start(alloc, Shifts)?;
    let Passes { mut list } = passes;
    run(rt, &locks, &mut list);
    let left = left_of(alloc, &list)?;
    let end = close(alloc, locks, list)?;
    Ok(Raced { left, end })
}

/// What is left of each worker's allowance.
fn left_of(alloc: Global, list: &Vec<Pass<Mover>>) -> Result<Vec<u32>, Memory> {
    let mut left = Vec::with_capacity(alloc, 2)?;
    for p in list {
        if left.push(allowance(p)).is_err() {
            return Err(Memory);
        }
    }
    Ok(left)
}

/// Closes the play, and gives what was kept of its end.
fn close(
    alloc: Global,
    locks: Locks<Shifts>,
    list: Vec<Pass<Mover>>,
) -> Result<End<Move, Place>, Memory>
    requires { AreBack shift_means locks.table.shared.table_id list.items }
{
    let mut end = End::with_room(alloc, 1026)?;
    let mut passes = Passes { list };
    let mut whole = Some(locks);
    Locks::close(&mut whole, &mut passes, &mut end);
    let Passes { list: _ } = passes;
    Ok(end)
}

/// Each pass shifts the thread 500 times, on a thread of its own.
fn run<R: Threads + Wait + Sync>(rt: &R, locks: &Locks<Shifts>, list: &mut Vec<Pass<Mover>>)
    requires { CanShiftOften locks.now.table.shared.table_id list.old.items }
    ensures { AreBack shift_means locks.now.table.shared.table_id list.new.items }
{
    let shifts = |_w: usize, p: &mut Pass<Mover>|
        requires { (p.now.table ≡ locks.now.table.shared.table_id) × CanShift p.now × (500 ≤ p.now.worker.allowance) }
        ensures { (p.exit.now.table ≡ p.entry.now.table) × (p.exit.now.worker.number ≡ p.entry.now.worker.number) × CanShift p.exit.now }
    { shift_often(rt, locks, p, TIMES) };
    thread::for_each_mut(rt, list, 2, &shifts);
}
