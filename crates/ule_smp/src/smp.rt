//! The shared scheduler, and the commands that a worker runs on its pass.
ghost use Rattle.std.specs.Prelude.{◌≡◌, ◌≤◌, List, ◌∷◌};
ghost use Rattle.ule_types.specs.Commands.{greatest_of};
ghost use Rattle.ule_types.specs.declared.command.Command.{Command};
ghost use Rattle.ule_parts.specs.Scheduler.{sched_means};
ghost use Rattle.ule_smp.specs.Runs.{HasRun};
ghost use Rattle.ule_smp.specs.Smp.{CanRun, RestsAfter};

use crate::course::run;
use std::marker::Model;
use std::sync::Wait;
use ule_seq::{SchedOwn, SchedParts};
use ule_types::{Command, Reply};
use ule_words::{Locks, Pass, Passes, allowance};

/// What a worker runs commands on.
pub type SmpPass = Pass<SchedOwn>;

/// The passes of all workers, in rising number.
pub type SmpPasses = Passes<SchedParts>;

/// The scheduler of a setup over lock words. Contracts see the setup, and the table of the words.
#[derive(Drop)]
pub struct Smp {
    pub(crate) locks: Locks<SchedParts>,
}

impl Model for Smp {
    ghost use Rattle.ule_smp.specs.Smp.{SmpValue};

    ghost Value = { SmpValue };

    ghost view = { λ s. record { setup = s.locks.parts; table = s.locks.table.shared.table_id } };
}

/// How many items a pass may still perform.
pub fn left(p: &SmpPass) -> u32
    ensures { result ≡ p.now.worker.allowance }
{
    allowance(p)
}

impl Smp {
    /// Runs a command to its end: takes the locks of each of its events, lets it take effect, stores
    /// the change of a thread's word, and gives the locks back. It answers the reply of the last
    /// event; none exactly where the command made no event. It takes no memory.
    pub fn run_command<R: Wait>(&self, rt: &R, p: &mut SmpPass, c: &Command) -> Option<Reply>
        requires table { p.old.table ≡ self.now.table }
        requires can { (given : List Command) × CanRun self.now.setup given c.now p.old }
        requires left { greatest_of c.now p.old.worker.number self.now.setup.cpus ≤ p.old.worker.allowance }
        ensures run { HasRun (sched_means self.now.setup) c.now p.old result p.new }
        ensures rest { (given : List Command) → CanRun self.now.setup given c.now p.old → RestsAfter self.now.setup (c.now ∷ given) p.new }
    {
        run(rt, &self.locks, p, c)
    }
}
