ghost use Rattle.std.specs.Prelude.{◌≡◌, None, Some, IfSome};
ghost use Rattle.ule_score.specs.Bounds.{KeepsBounds};

use std::marker::Model;
use ule_score::ThreadRecord;

/// What a worker has in hand: the record of a thread between two critical sections of the
/// worker's, or none.
#[derive(Drop)]
pub struct Hand {
    held: Option<ThreadRecord>,
}

impl Model for Hand {
    ghost use Rattle.std.specs.Prelude.{IfSome, Option};
    ghost use Rattle.ule_score.specs.Bounds.{KeepsBounds};
    ghost use Rattle.ule_score.specs.declared.record.ThreadRecord.{ThreadRecord};

    ghost Value = { Option ThreadRecord };

    ghost view = { λ h. h.held };

    ghost invariant = { λ h. IfSome h.held KeepsBounds };
}

impl Hand {
    /// An empty hand.
    pub fn empty() -> Hand
        ensures { result ≡ None }
    {
        Hand { held: None }
    }

    /// What is in the hand.
    pub fn get(&self) -> Option<ThreadRecord>
        ensures held { result ≡ self.now }
        ensures bounds { IfSome result KeepsBounds }
    {
        self.held
    }

    /// Takes what is in the hand, which is empty then.
    pub fn take(&mut self) -> Option<ThreadRecord>
        ensures held { result ≡ self.old }
        ensures empty { self.new ≡ None }
        ensures bounds { IfSome result KeepsBounds }
    {
        let held = self.held;
        self.held = None;
        held
    }

    /// Puts a thread into the hand.
    pub fn put(&mut self, r: ThreadRecord)
        requires { KeepsBounds r }
        ensures { self.new ≡ Some r }
    {
        self.held = Some(r);
    }
}
