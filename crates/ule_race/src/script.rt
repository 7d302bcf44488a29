// A worker's script.
ghost use Rattle.std.specs.Prelude.{◌≡◌, ◌<◌};
ghost use Rattle.ule_parts.specs.Scheduler.{orders_of};
ghost use Rattle.ule_smp.specs.Smp.{IsDone, IsFresh};

use crate::gate::Gate;
use std::sync::Wait;
use ule_smp::{Smp, SmpPass};
use ule_types::Setup;

/// Runs the commands of a worker's script one after another, with the gate's calls round each.
pub fn run_script<R: Wait, G: Gate>(
    rt: &R,
    smp: &Smp,
    p: &mut SmpPass,
    s: &Setup,
    worker: u8,
    gate: &G,
)
    requires setup { smp.now.setup ≡ s.now }
    requires worker { worker < s.now.cpus }
    requires fresh { IsFresh s.now smp.now.table worker p.old }
    ensures { IsDone s.now smp.now.table (orders_of s.now worker) worker p.new }
{
    let count = s.scripts.len(worker);
    for k in 0..count {
        gate.before(worker, k + 1, p);
        smp.run_command(rt, p, s.scripts.at(worker, k));
        gate.after(worker, k + 1, p);
    }
}
