//! What an event needs before it, and what its word change is behind it.
ghost use Rattle.std.specs.Prelude.{◌≡◌};
ghost use Rattle.ule_micro.specs.Laws.{AreRising};
ghost use Rattle.ule_micro.specs.Means.{fixed_by, thread_sought_by};

use crate::locks::Locks;
use ule_micro::{HeldLocks, Parts, WordChange};
use ule_prio::ThreadId;

impl<P: Parts> Locks<P> {
    /// The thread that a seeking event seeks; none exactly for the others.
    pub fn sought(&self, e: &P::Event) -> Option<ThreadId>
        ensures { result ≡ thread_sought_by ((P.means self.now.parts).needs e.now) }
    {
        self.parts.sought(e)
    }

    /// The rising locks of an event that doesn't seek; none exactly for one that does.
    pub fn fixed(&self, e: &P::Event) -> Option<HeldLocks>
        requires { AreRising ((P.means self.now.parts).needs e.now) }
        ensures { result ≡ fixed_by ((P.means self.now.parts).needs e.now) }
    {
        self.parts.fixed(e)
    }

    /// What becomes of a thread's word after an event with this reply; none exactly where no thread
    /// moved from one lock to another.
    pub fn change(&self, e: &P::Event, r: &P::Reply) -> Option<WordChange>
        requires { AreRising ((P.means self.now.parts).needs e.now) }
        ensures { result ≡ (P.means self.now.parts).change e.now r.now }
    {
        self.parts.change(e, r)
    }
}
