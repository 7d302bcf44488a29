//! A look at a CPU that does not wait for its lock.
ghost use Rattle.std.specs.Prelude.{◌≡◌, ◌<◌, ◌≤◌, List, ◌∷◌, Some, IfOk, IfErr, OnOk, OnErr};
ghost use Rattle.ule_types.specs.declared.command.Command.{Command};
ghost use Rattle.ule_types.specs.declared.command.Command.TheVariants.{Look};
ghost use Rattle.ule_types.specs.declared.event.Reply.TheVariants.{Seen};
ghost use Rattle.ule_parts.specs.Scheduler.{sched_means};
ghost use Rattle.ule_words.specs.Tells.{IsHolderOf};
ghost use Rattle.ule_smp.specs.Looks.{HasSeen};
ghost use Rattle.ule_smp.specs.Runs.{HasRun};
ghost use Rattle.ule_smp.specs.Smp.{RestsAfter};

use crate::course::attempt;
use crate::smp::{Smp, SmpPass};
use ule_prio::{Cpu, LockId};
use ule_topo::Summary;
use ule_types::{Command, Reply};
use ule_words::Busy;

impl Smp {
    /// Looks at a CPU where its lock is free, as the command `look` does. Where another worker holds
    /// the lock, it answers that one, and has changed nothing.
    pub fn try_look(&self, p: &mut SmpPass, c: Cpu) -> Result<Summary, Busy>
        requires table { p.old.table ≡ self.now.table }
        requires rest { (given : List Command) × RestsAfter self.now.setup given p.old }
        requires left { 1 ≤ p.old.worker.allowance }
        requires cpu { c < self.now.setup.cpus }
        ensures run { IfOk result (λ x. HasRun (sched_means self.now.setup) (Look c) p.old (Some (Seen x.load x.movable x.lowpri)) p.new) }
        ensures rest { OnOk result ((given : List Command) → RestsAfter self.now.setup given p.old → RestsAfter self.now.setup (Look c ∷ given) p.new) }
        ensures busy { OnErr result (p.new ≡ p.old) }
        ensures holder { IfErr result (λ b. IsHolderOf (sched_means self.now.setup) p.old.worker c b.holder) }
    {
        match attempt(&self.locks, p, LockId(c.0), &Command::Look(c)) {
            Ok(reply) => Ok(summary_of(&reply)),
            Err(busy) => Err(busy),
        }
    }
}

/// What the reply to a look says.
fn summary_of(reply: &Reply) -> Summary
    requires { HasSeen reply.now }
    ensures { Seen result.load result.movable result.lowpri ≡ reply.now }
{
    let Reply::Seen(load, movable, low) = *reply else {
        unreachable!()
    };
    Summary {
        load: load as u32,
        movable: movable as u32,
        lowpri: low.0,
    }
}
