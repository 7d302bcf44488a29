//! The end of a play of running threads.
ghost use Rattle.std.specs.Prelude.{◌≡◌, List};
ghost use Rattle.ule_types.specs.declared.command.Command.{Command};
ghost use Rattle.ule_smp.specs.Ends.{HasRoom, IsClosed, IsSomeEnd};
ghost use Rattle.ule_smp.specs.Smp.{AreDone};

use crate::smp::{Smp, SmpPasses};
use std::marker::Model;
use ule_types::Outcome;
use ule_words::{Locks, Passes};

/// The history of all passes, and what stands at its end. `Smp::close` alone makes it.
#[derive(Drop)]
pub struct Closed {
    outcome: Outcome,
}

impl Model for Closed {
    ghost use Rattle.ule_types.specs.Outcome.{OutcomeValue};
    ghost use Rattle.ule_smp.specs.Ends.{IsSomeEnd};

    ghost Value = { OutcomeValue };

    ghost view = { λ c. c.outcome };

    ghost invariant = { λ c. IsSomeEnd c.outcome };
}

impl Closed {
    /// The entries in the order of their numbers, and the final lines.
    pub fn outcome(&self) -> &Outcome
        ensures same { result.now ≡ self.now }
        ensures end { IsSomeEnd result.now }
    {
        &self.outcome
    }
}

impl Smp {
    /// Ends a play, with all passes, each between two commands: the history of all of them, in the
    /// order of the numbers, and what stands at its end. It takes no memory: the outcome is to be
    /// empty, with room for all entries.
    pub fn close(self, passes: SmpPasses, out: Outcome) -> Closed
        requires done { (lists : List (List Command)) × AreDone self.setup self.table lists passes.list.items }
        requires room { HasRoom self.setup out }
        ensures { (lists : List (List Command)) → AreDone self.setup self.table lists passes.list.items → IsClosed self.setup lists passes.list.items result }
    {
        let mut whole = Some(self.locks);
        let mut passes = passes;
        let mut outcome = out;
        Locks::close(&mut whole, &mut passes, &mut outcome);
        let None = whole else { unreachable!() };
        let Passes { list: _ } = passes;
        Closed { outcome }
    }
}
