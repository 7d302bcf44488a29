// The workers of a race, on threads.
ghost use Rattle.std.specs.Prelude.{◌≡◌, ◌<◌};
ghost use Rattle.ule_parts.specs.Scheduler.{orders_of};
ghost use Rattle.ule_smp.specs.Smp.{AreDone, AreFresh, IsDone, IsFresh};

use crate::gate::Gate;
use crate::script::run_script;
use std::sync::Wait;
use std::thread;
use std::thread::Threads;
use ule_smp::{Smp, SmpPass, SmpPasses};
use ule_types::Setup;

/// Each pass of a list runs its worker's script.
fn run_all<R: Threads + Wait + Sync, G: Gate + Sync>(
    rt: &R,
    smp: &Smp,
    list: &mut [SmpPass],
    s: &Setup,
    gate: &G,
)
    requires setup { smp.now.setup ≡ s.now }
    requires fresh { AreFresh s.now smp.now.table list.old }
    ensures { AreDone s.now smp.now.table s.now.scripts list.new }
{
    let count = list.len();
    let run = |w: usize, p: &mut SmpPass|
        requires { (smp.now.setup ≡ s.now) × (w < s.now.cpus) × IsFresh s.now smp.now.table w p.now }
        ensures { IsDone s.entry.now smp.entry.now.table (orders_of s.entry.now w) w p.exit.now }
    { run_script(rt, smp, p, s, w as u8, gate) };
    thread::for_each_mut(rt, list, count, &run);
}

/// Each pass runs its worker's script, on a thread of its own where one can be made: else some run
/// one after another. The scheduler and the passes are those of one start of the setup. It takes no
/// memory.
pub fn workers<R: Threads + Wait + Sync, G: Gate + Sync>(
    rt: &R,
    smp: &Smp,
    passes: &mut SmpPasses,
    s: &Setup,
    gate: &G,
)
    requires setup { smp.now.setup ≡ s.now }
    requires fresh { AreFresh s.now smp.now.table passes.old.list.items }
    ensures { AreDone s.now smp.now.table s.now.scripts passes.new.list.items }
{
    run_all(rt, smp, &mut passes.list, s, gate);
}
