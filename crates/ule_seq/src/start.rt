ghost use Rattle.std.specs.Prelude.{◌≡◌, None, replicate, IfOk};
ghost use Rattle.ule_model.specs.OpeningValues.{opening_scheduler};
ghost use Rattle.ule_model.specs.Start.{world_at_start};
ghost use Rattle.ule_model.specs.WorldValue.{Shows};

use crate::hand::Hand;
use crate::lock::{Guarded, LOCKS};
use crate::opening::opening;
use crate::world::World;
use std::alloc::Global;
use ule_io::Memory;
use ule_prio::LockId;
use ule_types::Setup;

/// What each lock guards at the start, by its number.
fn opening_values(alloc: Global, s: &Setup) -> Result<Vec<Guarded>, Memory>
    ensures { IfOk result (λ values. values.items ≡ (opening_scheduler s.now).values) }
{
    let mut values = Vec::new(alloc);
    for l in 0..LOCKS {
        let guarded = opening(alloc, s, LockId(l))?;
        let Ok(()) = values.push(guarded) else {
            return Err(Memory);
        };
    }
    Ok(values)
}

/// An empty hand for each of so many workers.
fn empty_hands(alloc: Global, workers: u8) -> Result<Vec<Hand>, Memory>
    ensures { IfOk result (λ hands. hands.items ≡ replicate workers None) }
{
    let mut hands = Vec::new(alloc);
    for _worker in 0..workers {
        let Ok(()) = hands.push(Hand::empty()) else {
            return Err(Memory);
        };
    }
    Ok(hands)
}

impl World {
    /// The world of a setup at the start: each declared thread is queued on its CPU, in their
    /// order, and no worker has anything in hand. It takes all the memory that the world ever
    /// needs; without that memory there is no world.
    pub fn start(alloc: Global, s: &Setup) -> Result<World, Memory>
        ensures value { IfOk result (λ v. v ≡ opening_scheduler s.now) }
        ensures shows { IfOk result (λ v. Shows v (world_at_start s.now)) }
    {
        let values = opening_values(alloc, s)?;
        let hands = empty_hands(alloc, s.cpus)?;
        Ok(World {
            settings: s.settings,
            values,
            hands,
        })
    }
}
