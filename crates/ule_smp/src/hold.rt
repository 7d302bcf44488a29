//! A thread that a worker locks beside its commands.
ghost use Rattle.std.specs.Prelude.{◌≡◌, ◌<◌, true, List, [], ◌∷◌, None};
ghost use Rattle.ule_types.specs.Commands.{is_among};
ghost use Rattle.ule_types.specs.declared.command.Command.{Command};
ghost use Rattle.ule_parts.specs.Workers.{declared_ids_of};
ghost use Rattle.ule_words.specs.Workers.{releasing};
ghost use Rattle.ule_smp.specs.Smp.{HasLocked, RestsAfter};

use crate::seek::take_lock_of;
use crate::smp::{Smp, SmpPass};
use std::sync::Wait;
use ule_prio::{LockId, ThreadId};
use ule_score::Place;
use ule_seq::place_in;
use ule_words::value;

/// A thread that was locked: the lock of its place, which the pass holds, and the place.
#[derive(Clone, Copy)]
pub struct Held {
    pub thread: ThreadId,
    pub lock: LockId,
    pub place: Place,
}

impl Smp {
    /// Takes the lock of a declared thread's place, after `thread_lock`: reads the thread's word, takes
    /// the lock that it names, and reads the word again; where it has changed, it gives the lock back
    /// and begins again. No entry is made.
    pub fn lock_thread<R: Wait>(&self, rt: &R, p: &mut SmpPass, t: ThreadId) -> Held
        requires table { p.old.table ≡ self.now.table }
        requires rest { (given : List Command) × RestsAfter self.now.setup given p.old }
        requires declared { is_among (declared_ids_of self.now.setup) t ≡ true }
        ensures locked { HasLocked t p.old result p.new }
        ensures low { result.lock < 25 }
    {
        let lock = take_lock_of(rt, &self.locks, p, t);
        let Some(place) = place_in(value(p, lock), t) else {
            unreachable!()
        };
        Held {
            thread: t,
            lock,
            place,
        }
    }

    /// Gives a thread's lock back, after `thread_unlock`. The pass holds no other, and has no change
    /// of a word to store.
    pub fn unlock(&self, p: &mut SmpPass, h: Held)
        requires table { p.old.table ≡ self.now.table }
        requires held { (v : _) × (p.old.worker.held ≡ (h.lock, v) ∷ []) }
        requires calm { p.old.worker.pending ≡ None }
        ensures after { p.new ≡ record p.old { worker = releasing p.old.worker h.lock } }
        ensures free { p.new.worker.held ≡ [] }
    {
        self.locks.release(p, h.lock);
    }
}
