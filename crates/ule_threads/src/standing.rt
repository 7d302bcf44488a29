ghost use Rattle.std.specs.Prelude.{◌≡◌, ℕ, None, length, vec_len, slice_index_or, slice_set, IfOk};

use crate::slots::{THREADS, reach, slot_of};
use std::alloc::Global;
use std::marker::Model;
use ule_io::Memory;
use ule_prio::ThreadId;
use ule_score::{Place, ThreadRecord};

/// A thread with its place.
#[derive(Clone, Copy)]
pub struct Standing {
    pub thread: ThreadRecord,
    /// Where it stands.
    pub place: Place,
}

/// Some threads with their places, by number.
#[derive(Drop)]
pub struct Standings {
    // the slots of the numbers that were used, and those before them
    slots: Vec<Option<Standing>>,
}

impl Model for Standings {
    ghost use Rattle.std.specs.Prelude.{◌≤◌, List, Option, vec_len, vec_capacity};
    ghost use Rattle.ule_threads.specs.Slots.{all_slots};
    ghost use Rattle.ule_threads.specs.declared.standing.Standing.{Standing};

    ghost Value = { List (Option Standing) };

    ghost view = { λ s. all_slots s.slots.items };

    ghost invariant = { λ s. record {
      few : vec_len s.slots ≤ 256;
      room : 256 ≤ vec_capacity s.slots;
    } };
}

impl Standings {
    /// No threads, with room for all 256 numbers. It takes all the memory that it ever needs.
    pub fn none(alloc: Global) -> Result<Standings, Memory>
        ensures slots { IfOk result (λ s. length s ≡ 256) }
        ensures none { IfOk result (λ s. (t : ℕ) → slice_index_or s t None ≡ None) }
    {
        let Ok(slots) = Vec::with_capacity(alloc, THREADS) else {
            return Err(Memory);
        };
        Ok(Standings { slots })
    }

    /// A thread with its place, if it is here.
    pub fn get(&self, t: ThreadId) -> Option<Standing>
        ensures { result ≡ slice_index_or self.now t None }
    {
        slot_of(&self.slots, t)
    }

    /// Keeps this for a thread.
    pub fn put(&mut self, t: ThreadId, kept: Option<Standing>)
        ensures { self.new ≡ slice_set self.old t kept }
    {
        reach(&mut self.slots, t);
        self.slots[usize::from(t.0)] = kept;
    }
}
