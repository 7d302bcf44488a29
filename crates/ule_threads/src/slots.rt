ghost use Rattle.std.specs.Prelude.{◌≡◌, ◌≤◌, ◌<◌, vec_len, vec_capacity, slice_index_or, None};
ghost use Rattle.ule_threads.specs.Slots.{all_slots};

use ule_prio::ThreadId;

/// How many thread numbers there are.
pub const THREADS: usize = 256;

/// What the slot of a thread has; nothing where the table has no such slot yet.
#[tactic(auto, using(crate::proofs::SlotLaws::slot_of_all))]
#[inline]
pub fn slot_of<T: Copy>(slots: &Vec<Option<T>>, t: ThreadId) -> Option<T>
    ensures { result ≡ slice_index_or (all_slots slots.now.items) t None }
{
    match slots.get(usize::from(t.0)) {
        Some(slot) => *slot,
        None => None,
    }
}

/// Has the slot of a thread, and those before it, in a table that has room for all: the new ones
/// are empty. Memory is touched for no number above those that were used.
#[tactic(auto, using(crate::proofs::SlotLaws::all_slots_longer))]
#[inline]
pub fn reach<T: Copy>(slots: &mut Vec<Option<T>>, t: ThreadId)
    requires room { 256 ≤ vec_capacity slots.old }
    requires few { vec_len slots.old ≤ 256 }
    ensures slots { all_slots slots.new.items ≡ all_slots slots.old.items }
    ensures there { t < vec_len slots.new }
    ensures room { 256 ≤ vec_capacity slots.new }
    ensures few { vec_len slots.new ≤ 256 }
{
    let at = usize::from(t.0);
    if slots.len() <= at {
        slots.resize(at + 1, None).unwrap();
    }
}
