//! A thread is locked by its word, which names the lock of its place.
ghost use Rattle.std.specs.Prelude.{◌≡◌, ◌<◌, true, [], ◌∷◌, None};
ghost use Rattle.ule_micro.specs.declared.locks.TheConstants.{LOCKS};
ghost use Rattle.ule_micro.specs.declared.word.Word.TheVariants.{Lock};
ghost use Rattle.ule_words.specs.Workers.{taking};

use crossbeam_utils::Backoff;
use std::sync::Wait;
use ule_micro::{Parts, Word};
use ule_prio::{LockId, ThreadId};
use ule_words::{Locks, Pass};

/// Takes the lock that a declared thread's word names, reads the word again, and begins again where
/// it has changed.
pub(crate) fn take_lock_of<R: Wait, P: Parts>(
    rt: &R,
    locks: &Locks<P>,
    p: &mut Pass<P::Own>,
    t: ThreadId,
) -> LockId
    requires table { p.old.table ≡ locks.now.table.shared.table_id }
    requires free { p.old.worker.held ≡ [] }
    requires calm { p.old.worker.pending ≡ None }
    requires declared { (P.means locks.now.parts).declared t ≡ true }
    ensures locked { (v : P.Value) × (p.new ≡ record p.old { worker = taking p.old.worker result v }) × ((P.means locks.now.parts).stands_in v t ≡ true) }
    ensures low { result < LOCKS }
{
    let backoff = Backoff::new();
    for _ in rt.forever() {
        let word = locks.read_word(p, t);
        let Word::Lock(l) = word else {
            backoff.snooze();
            continue;
        };
        locks.take(rt, p, l);
        let again = locks.read_word(p, t);
        if names(&again, l) {
            return l;
        }
        locks.release(p, l);
    }
    unreachable!()
}

/// Whether a word names the lock.
fn names(word: &Word, l: LockId) -> bool
    ensures { result ≡ true → word.now ≡ Lock l }
{
    match word {
        Word::Blocked => false,
        Word::Lock(named) => *named == l,
    }
}
