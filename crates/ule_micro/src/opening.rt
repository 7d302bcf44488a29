//! How the step model starts. All memory is taken here.
ghost use Rattle.std.specs.Prelude.{◌≡◌, ◌<◌, ◌≤◌, ◌+◌, length, IfOk};
ghost use Rattle.ule_micro.specs.Means.{budgets};
ghost use Rattle.ule_micro.specs.Opening.{AreFirstSeats, AreFirstValues, AreFirstWords, AreFreeLocks, IsFirstSeat};
ghost use Rattle.ule_micro.specs.Theorem.{HasLegalPlay, IsNotStuck, IsStart, LockAgreement, WordTellsPlace};

use crate::going::{next_item, phase_of};
use crate::locks::{LOCKS, THREADS};
use crate::micro::Micro;
use crate::parts::Parts;
use crate::seat::Seat;
use crate::word::Word;
use std::alloc::Global;
use ule_io::Memory;
use ule_prio::{LockId, ThreadId};

impl<P: Parts> Micro<P> {
    /// The workers of these parts at the start: all locks are free, each word names the lock of its
    /// thread's place, and now is 20000 hz ticks. It takes all the memory that it ever needs.
    pub fn start(alloc: Global, parts: P) -> Result<Micro<P>, Memory>
    where
        P: Drop,
        ensures parts { IfOk result (λ m. m.parts ≡ parts) }
        ensures start { IfOk result (λ m. IsStart (P.means parts) (P.orders parts) m.state) }
        ensures agrees { IfOk result (λ m. LockAgreement (P.means parts) (P.orders parts) m.state) }
        ensures legal { IfOk result (λ m. HasLegalPlay (P.means parts) (P.orders parts) m.state) }
        ensures tells { IfOk result (λ m. WordTellsPlace (P.means parts) m.state) }
        ensures goes_on { IfOk result (λ m. IsNotStuck (P.means parts) (P.orders parts) m.state) }
    {
        let workers = parts.workers();
        let room = all_budgets(&parts, workers);
        let locks = free_locks(alloc)?;
        let words = first_words(alloc, &parts)?;
        let values = first_values(alloc, &parts)?;
        let seats = first_seats(alloc, &parts, workers)?;
        let history = Vec::with_capacity(alloc, room as usize)?;
        Ok(Micro {
            parts,
            locks,
            words,
            ticket: 0,
            time: 20000,
            values,
            seats,
            history,
        })
    }
}

/// The greatest number of items of all workers.
fn all_budgets<P: Parts>(parts: &P, workers: u8) -> u32
    requires { workers ≡ length (P.means parts.now).owns }
    ensures { result ≡ budgets (P.means parts.now).budget workers }
{
    let mut room = 0;
    for worker in 0..workers {
        room += parts.budget(worker);
    }
    room
}

/// Free lock words.
fn free_locks(alloc: Global) -> Result<Vec<Option<u8>>, Memory>
    ensures { IfOk result (λ v. AreFreeLocks LOCKS v.items) }
{
    let mut locks: Vec<Option<u8>> = Vec::new(alloc);
    for _lock in 0..LOCKS {
        if locks.push(None).is_err() {
            return Err(Memory);
        }
    }
    Ok(locks)
}

/// The threads' words.
fn first_words<P: Parts>(alloc: Global, parts: &P) -> Result<Vec<Word>, Memory>
    ensures { IfOk result (λ v. AreFirstWords (P.means parts.now) THREADS v.items) }
{
    let mut words = Vec::new(alloc);
    for t in 0..THREADS {
        let l = parts.word_at_start(ThreadId(t as u8));
        if words.push(Word::Lock(l)).is_err() {
            return Err(Memory);
        }
    }
    Ok(words)
}

/// The values under the locks.
fn first_values<P: Parts>(alloc: Global, parts: &P) -> Result<Vec<P::Value>, Memory>
    ensures { IfOk result (λ v. AreFirstValues (P.means parts.now) LOCKS v.items) }
{
    let mut values = Vec::new(alloc);
    for l in 0..LOCKS {
        let value = parts.opening(alloc, LockId(l))?;
        if values.push(value).is_err() {
            return Err(Memory);
        }
    }
    Ok(values)
}

/// The workers, each with its first item.
fn first_seats<P: Parts>(
    alloc: Global,
    parts: &P,
    workers: u8,
) -> Result<Vec<Seat<P::Own, P::Event, P::Reply>>, Memory>
    requires { workers ≡ length (P.means parts.now).owns }
    ensures { IfOk result (λ v. AreFirstSeats (P.means parts.now) (P.orders parts.now) workers v.items) }
{
    let mut seats = Vec::new(alloc);
    for worker in 0..workers {
        let seat = first_seat(parts, worker);
        if seats.push(seat).is_err() {
            return Err(Memory);
        }
    }
    Ok(seats)
}

/// One worker, with its first item.
fn first_seat<P: Parts>(parts: &P, worker: u8) -> Seat<P::Own, P::Event, P::Reply>
    requires { worker < length (P.means parts.now).owns }
    ensures { IsFirstSeat (P.means parts.now) (P.orders parts.now) worker result }
{
    let mut own = parts.own_at_start(worker);
    let mut begun = 0;
    let item = next_item(parts, worker, &mut own, &mut begun);
    Seat {
        own,
        begun,
        items: 0,
        advanced: 0,
        pending: None,
        phase: phase_of(item),
    }
}
