ghost use Rattle.std.specs.Option.{option_map};
ghost use Rattle.std.specs.Prelude.{◌≡◌, ◌≤◌, ◌<◌, ◌^◌, ℕ, false, None, length, vec_len, slice_index_or, slice_set, IfOk, IfSome, IsSome};
ghost use Rattle.ule_score.specs.Bounds.{KeepsBounds};
ghost use Rattle.ule_score.specs.Changes.{after_running, used};

use crate::slots::{THREADS, reach, slot_of};
use std::alloc::Global;
use std::marker::Model;
use ule_io::Memory;
use ule_prio::ThreadId;
use ule_score::{ThreadRecord, note_ran, note_runs};

/// The records of some threads, by number.
#[derive(Drop)]
pub struct Threads {
    // the slots of the numbers that were used, and those before them
    slots: Vec<Option<ThreadRecord>>,
}

impl Model for Threads {
    ghost use Rattle.std.specs.Prelude.{◌≤◌, List, Option, vec_len, vec_capacity};
    ghost use Rattle.ule_threads.specs.Slots.{all_slots};
    ghost use Rattle.ule_score.specs.declared.record.ThreadRecord.{ThreadRecord};

    ghost Value = { List (Option ThreadRecord) };

    ghost view = { λ s. all_slots s.slots.items };

    ghost invariant = { λ s. record {
      few : vec_len s.slots ≤ 256;
      room : 256 ≤ vec_capacity s.slots;
    } };
}

impl Threads {
    /// No records, with room for all.
    pub fn none(alloc: Global) -> Result<Threads, Memory>
        ensures slots { IfOk result (λ s. length s ≡ 256) }
        ensures none { IfOk result (λ s. (t : ℕ) → slice_index_or s t None ≡ None) }
    {
        let Ok(slots) = Vec::with_capacity(alloc, THREADS) else {
            return Err(Memory);
        };
        Ok(Threads { slots })
    }

    /// The record of a thread, if it is here.
    pub fn get(&self, t: ThreadId) -> Option<ThreadRecord>
        ensures { result ≡ slice_index_or self.now t None }
    {
        slot_of(&self.slots, t)
    }

    /// Keeps this record for a thread.
    pub fn put(&mut self, t: ThreadId, kept: Option<ThreadRecord>)
        ensures { self.new ≡ slice_set self.old t kept }
    {
        reach(&mut self.slots, t);
        self.slots[usize::from(t.0)] = kept;
    }

    /// Notes in the record of a thread that it has just left the processor at `now`, as
    /// [`ule_score::note_ran`] does.
    #[inline]
    pub fn note_ran(&mut self, t: ThreadId, now: u64)
        requires begun { 20000 ≤ now }
        requires bounded { now < 2 ^ 36 }
        requires present { IsSome (slice_index_or self.old t None) }
        requires bounds { IfSome (slice_index_or self.old t None) KeepsBounds }
        requires in_time { IfSome (slice_index_or self.old t None) (λ r. r.usage.ltick ≤ now) }
        ensures { self.new ≡ slice_set self.old t (option_map (after_running now) (slice_index_or self.old t None)) }
    {
        reach(&mut self.slots, t);
        let slot = &mut self.slots[usize::from(t.0)];
        let Some(r) = slot else { unreachable!() };
        note_ran(r, now);
    }

    /// Notes in the record of a thread that it has just got the processor at `now`, as
    /// [`ule_score::note_runs`] does.
    #[inline]
    pub fn note_runs(&mut self, t: ThreadId, now: u64)
        requires begun { 20000 ≤ now }
        requires bounded { now < 2 ^ 36 }
        requires present { IsSome (slice_index_or self.old t None) }
        requires bounds { IfSome (slice_index_or self.old t None) KeepsBounds }
        requires in_time { IfSome (slice_index_or self.old t None) (λ r. r.usage.ltick ≤ now) }
        ensures { self.new ≡ slice_set self.old t (option_map (used false now) (slice_index_or self.old t None)) }
    {
        reach(&mut self.slots, t);
        let slot = &mut self.slots[usize::from(t.0)];
        let Some(r) = slot else { unreachable!() };
        note_runs(r, now);
    }
}
