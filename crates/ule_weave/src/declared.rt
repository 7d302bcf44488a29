//! The threads that a setup declares.
ghost use Rattle.std.specs.Prelude.{◌≡◌, [], ◌∷◌, ◌++◌, map, IfOk, OnOk, if◌then◌else◌};
ghost use Rattle.ule_parts.specs.Workers.{declared_ids_of};
ghost use Rattle.ule_types.specs.Commands.{is_among};
ghost use Rattle.ule_weave.specs.WeaveText.{declared_in_order};

use std::alloc::Global;
use ule_io::Memory;
use ule_micro::locks::THREADS;
use ule_prio::ThreadId;
use ule_types::{Setup, ThreadSpec};

/// The declared threads of a setup, in rising number.
pub(crate) fn declared_threads(alloc: Global, s: &Setup) -> Result<Vec<ThreadId>, Memory>
    ensures { IfOk result (λ v. v.items ≡ declared_in_order s.now) }
{
    let mut threads = Vec::new(alloc);
    for t in 0..THREADS {
        let t = ThreadId(t as u8);
        note_if(is_declared(s, t), &mut threads, t)?;
    }
    Ok(threads)
}

/// Notes a thread behind the others, where it is declared.
fn note_if(declared: bool, threads: &mut Vec<ThreadId>, t: ThreadId) -> Result<(), Memory>
    ensures { OnOk result (threads.new.items ≡ threads.old.items ++ (if declared then t ∷ [] else [])) }
{
    if !declared {
        return Ok(());
    }
    match threads.push(t) {
        Ok(()) => Ok(()),
        Err(_) => Err(Memory),
    }
}

/// Whether a setup declares a thread, which is queued on a CPU at the start or unborn.
fn is_declared(s: &Setup, t: ThreadId) -> bool
    ensures { result ≡ is_among (declared_ids_of s.now) t }
{
    if is_queued(s.threads.as_slice(), t) {
        return true;
    }
    is_unborn(s.unborn.as_slice(), t)
}

/// Whether a thread is one of those that are queued at the start.
fn is_queued(specs: &[ThreadSpec], t: ThreadId) -> bool
    ensures { result ≡ is_among (map (λ spec. spec.id) specs.now) t }
{
    for spec in specs {
        if spec.id == t {
            return true;
        }
    }
    false
}

/// Whether a thread is one of those that are unborn at the start.
fn is_unborn(ids: &[ThreadId], t: ThreadId) -> bool
    ensures { result ≡ is_among ids.now t }
{
    for id in ids {
        if *id == t {
            return true;
        }
    }
    false
}
