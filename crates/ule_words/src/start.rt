//! The start: the words, the slots, and a pass for each worker. All memory is taken here.
ghost use Rattle.std.specs.Prelude.{◌≡◌, ℕ, ◌+◌, ◌<◌, length, map, [], Some, IfOk, slice_get, slice_index};
ghost use Rattle.ule_words.specs.Workers.{first_worker, one};
ghost use Rattle.ule_words.specs.Starts.{AreFirstPasses, AreFirstWords};

use crate::holding::Holding;
use crate::locks::Locks;
use crate::log::Log;
use crate::pass::{Pass, Passes};
use crate::view::{Deals, NOW, Place, WORDS};
use atomic_table::Table;
use std::alloc::Global;
use ule_io::Memory;
use ule_micro::Parts;
use ule_micro::locks::{LOCKS, THREADS};
use ule_prio::{LockId, ThreadId};

impl<P: Parts + Drop> Locks<P> {
    /// The words and values of these parts at the start, where all locks are free, each word names the
    /// lock of its thread's place, and now is 20000 hz ticks; and a pass for each worker. It takes all
    /// the memory that they ever need: each pass's list has room for its budget.
    pub fn start(alloc: Global, parts: P) -> Result<(Locks<P>, Passes<P>), Memory>
        ensures parts { IfOk result (λ r. r.0.parts ≡ parts) }
        ensures passes { IfOk result (λ r. AreFirstPasses (P.means parts) (length (P.means parts).owns) r.0.table.shared.table_id r.1.list.items) }
    {
        let slots = first_slots(alloc, &parts)?;
        let words = first_words(&parts);
        let count = parts.workers();
        let mut list = Vec::with_capacity(alloc, count as usize)?;
        let rack = Log::with_room(alloc, u8::MAX as usize)?;
        let Ok(made) = Table::new(alloc, &words, slots, &parts) else {
            return Err(Memory);
        };
        let (table, mut seat) = made;
        let mut worker = 0;
        while worker < count {
            let own_seat = table.shared.split_seat::<Deals>(&mut seat);
            let pass = first_pass(alloc, &parts, worker, own_seat)?;
            list.push_reserved(pass);
            worker += 1;
        }
        Ok((Locks { parts, table, rack }, Passes { list }))
    }
}

/// The values of the locks.
fn first_slots<P: Parts>(alloc: Global, parts: &P) -> Result<Vec<Option<P::Value>>, Memory>
    ensures { IfOk result (λ v. v.items ≡ map (λ x. Some x) (P.means parts.now).values) }
{
    let mut slots = Vec::with_capacity(alloc, LOCKS as usize)?;
    let mut l: u8 = 0;
    while l < LOCKS {
        let value = parts.opening(alloc, LockId(l))?;
        slots.push_reserved(Some(value));
        l += 1;
    }
    Ok(slots)
}

/// The words of the locks and threads, the ticket and now.
fn first_words<P: Parts>(parts: &P) -> [u64; WORDS]
    ensures { AreFirstWords (P.means parts.now) result }
{
    let mut words = [0; WORDS];
    let mut t = 0;
    while t < THREADS as usize {
        words[LOCKS as usize + t] = parts.word_at_start(ThreadId(t as u8)).0 as u64 + 1;
        t += 1;
    }
    words[NOW] = 20000;
    words
}

/// The pass of a worker that there is, with a seat that knows of it alone.
fn first_pass<P: Parts>(
    alloc: Global,
    parts: &P,
    worker: u8,
    seat: Place<P::Own>,
) -> Result<Pass<P::Own>, Memory>
    requires worker { worker < length (P.means parts.now).owns }
    requires knows { (own : P.Own) → slice_get (P.means parts.now).owns worker ≡ Some own → seat.me ≡ (one (first_worker (P.means parts.now) worker own), []) }
    ensures table { IfOk result (λ p. p.table ≡ seat.table_id) }
    ensures own { IfOk result (λ p. slice_get (P.means parts.now).owns worker ≡ Some p.own) }
    ensures worker { IfOk result (λ p. p.worker ≡ first_worker (P.means parts.now) worker p.own) }
{
    let allowance = parts.budget(worker);
    let log = Log::with_room(alloc, allowance as usize)?;
    Ok(Pass {
        number: worker,
        allowance,
        time: 0,
        own: parts.own_at_start(worker),
        holding: Holding {
            last: None,
            first: None,
        },
        log,
        seat,
    })
}
