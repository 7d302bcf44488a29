// A race from its start to the history that all workers made.
ghost use Rattle.std.specs.Prelude.{IfOk};
ghost use Rattle.ule_smp.specs.Ends.{IsWholeOutcome};

use crate::gate::Gate;
use crate::threads::workers;
use std::alloc::Global;
use std::sync::Wait;
use std::thread::Threads;
use ule_io::Memory;
use ule_seq::GREATEST_ROUNDS;
use ule_smp::{Closed, Smp};
use ule_types::{Outcome, Setup};

/// Every worker of a setup runs its script. All memory is taken before the first one begins.
pub fn play_race<R: Threads + Wait + Sync, G: Gate + Sync>(
    rt: &R,
    alloc: Global,
    s: &Setup,
    gate: &G,
) -> Result<Closed, Memory>
    ensures { IfOk result (IsWholeOutcome s.now s.now.scripts) }
{
    let room = Outcome::with_room(alloc, GREATEST_ROUNDS)?;
    let (smp, mut passes) = Smp::start(alloc, s)?;
    workers(rt, &smp, &mut passes, s, gate);
    Ok(smp.close(passes, room))
}
