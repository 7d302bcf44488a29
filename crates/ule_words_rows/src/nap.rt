//! One thread and two workers: the thread leaves a queue for a hand, and comes to a sleep chain.
ghost use Rattle.std.specs.Prelude.{◌≡◌, true, false, IfOk, IfSome};
ghost use Rattle.ule_micro_rows.specs.Nap.{nap_means};
ghost use Rattle.ule_words_rows.specs.Firsts.{IsFirstPass};
ghost use Rattle.ule_words_rows.specs.Idle.{IsIdle};

use std::alloc::Global;
use ule_io::Memory;
use ule_micro::Word;
use ule_micro_rows::ends::End;
use ule_micro_rows::nap::{Act, Answer, Nap, Napper, QUEUE};
use ule_prio::ThreadId;
use ule_words::{Locks, Pass, Passes};

/// The thread.
const THREAD: ThreadId = ThreadId(0);

/// The locks, and the passes of both workers.
#[derive(Drop)]
pub struct Started {
    /// The locks.
    pub locks: Locks<Nap>,
    /// The pass of worker 0.
    pub first: Pass<Napper>,
    /// The pass of worker 1.
    pub second: Pass<Napper>,
}

/// The start.
pub fn start(alloc: Global) -> Result<Started, Memory>
    ensures first { IfOk result (λ s. IsFirstPass nap_means 0 s.locks.table.shared.table_id s.first) }
    ensures second { IfOk result (λ s. IsFirstPass nap_means 1 s.locks.table.shared.table_id s.second) }
{
    let (locks, passes) = Locks::start(alloc, Nap)?;
    let Passes { mut list } = passes;
    let Some(second) = list.pop() else {
        return Err(Memory);
    };
    let Some(first) = list.pop() else {
        return Err(Memory);
    };
    Ok(Started {
        locks,
        first,
        second,
    })
}

/// Worker 0 takes the thread from the queue into its hand and gives it back, by two events under one
/// lock and at one time. False where the queue was taken or the thread elsewhere.
fn turn(locks: &Locks<Nap>, p: &mut Pass<Napper>) -> bool
    requires { IsIdle 0 locks.now.table.shared.table_id false 3 p.old }
    ensures { result ≡ true → IsIdle 0 locks.now.table.shared.table_id false 1 p.new }
{
    if locks.try_take(p, QUEUE).is_err() {
        return false;
    }
    locks.read_now(p);
    let Answer::Left = locks.commit(p, &Act::Doze) else {
        return false;
    };
    locks.block(p, THREAD);
    let Answer::Came = locks.commit(p, &Act::Land) else {
        return false;
    };
    locks.point(p, THREAD, QUEUE);
    locks.release(p, QUEUE);
    true
}

/// Worker 0 takes the thread from the queue into its hand, and blocks its word. It gives what worker 1
/// reads of the word before it is blocked, and after, each as the lock that it names, if any; nothing
/// where the queue was taken or the thread elsewhere.
fn doze(
    locks: &Locks<Nap>,
    first: &mut Pass<Napper>,
    second: &mut Pass<Napper>,
) -> Option<[Option<u8>; 2]>
    requires first { IsIdle 0 locks.now.table.shared.table_id false 1 first.old }
    requires second { second.old.table ≡ locks.now.table.shared.table_id }
    ensures first { IfSome result (λ _. IsIdle 0 locks.now.table.shared.table_id true 0 first.new) }
    ensures second { second.new ≡ second.old }
{
    if locks.try_take(first, QUEUE).is_err() {
        return None;
    }
    locks.read_now(first);
    let reply = locks.commit(first, &Act::Doze);
    let Answer::Left = reply else {
        return None;
    };
    let before = locks.read_word(second, THREAD);
    locks.block(first, THREAD);
    let after = locks.read_word(second, THREAD);
    locks.release(first, QUEUE);
    Some([lock_of(before), lock_of(after)])
}

/// What a row tells: what worker 1 read of the thread's word, and what was kept of the end.
#[derive(Drop)]
pub struct Played {
    /// The lock that the word named before it was blocked, and after.
    pub read: [Option<u8>; 2],
    /// The end.
    pub end: End<Act, Answer>,
}

/// Worker 0 takes the thread into its hand and gives it back, and takes it again; then the play is
/// closed. Nothing where a lock was taken or the thread elsewhere.
pub fn play(alloc: Global, s: Started) -> Result<Option<Played>, Memory>
    requires first { IsFirstPass nap_means 0 s.locks.table.shared.table_id s.first }
    requires second { IsFirstPass nap_means 1 s.locks.table.shared.table_id s.second }
{
    let Started {
        locks,
        mut first,
        mut second,
    } = s;
    if !turn(&locks, &mut first) {
        return Ok(None);
    }
    let Some(read) = doze(&locks, &mut first, &mut second) else {
        return Ok(None);
    };
    let end = close(alloc, locks, first, second)?;
    Ok(Some(Played { read, end }))
}

/// Closes the play, the passes of which hold no lock, and gives what was kept of its end.
fn close(
    alloc: Global,
    locks: Locks<Nap>,
    first: Pass<Napper>,
    second: Pass<Napper>,
) -> Result<End<Act, Answer>, Memory>
    requires first { IsIdle 0 locks.table.shared.table_id true 0 first }
    requires second { IsIdle 1 locks.table.shared.table_id false 2 second }
{
    let mut list = Vec::with_capacity(alloc, 2)?;
    let mut end = End::with_room(alloc, 5)?;
    list.push_reserved(first);
    list.push_reserved(second);
    let mut passes = Passes { list };
    let mut whole = Some(locks);
    Locks::close(&mut whole, &mut passes, &mut end);
    let Passes { list: _ } = passes;
    Ok(end)
}

/// The number of the lock that a word names; none where it is blocked.
fn lock_of(word: Word) -> Option<u8> {
    match word {
        Word::Lock(l) => Some(l.0),
        Word::Blocked => None,
    }
}
