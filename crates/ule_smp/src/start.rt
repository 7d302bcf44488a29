//! The start of a shared scheduler.
ghost use Rattle.std.specs.Prelude.{◌≡◌, IfOk};
ghost use Rattle.ule_smp.specs.Smp.{AreFresh};

use crate::smp::{Smp, SmpPasses};
use std::alloc::Global;
use ule_io::Memory;
use ule_seq::SchedParts;
use ule_types::Setup;
use ule_words::Locks;

impl Smp {
    /// The scheduler of a setup at the start, and a pass for each worker. It takes all the memory that
    /// they ever need.
    pub fn start(alloc: Global, s: &Setup) -> Result<(Smp, SmpPasses), Memory>
        ensures setup { IfOk result (λ r. r.0.setup ≡ s.now) }
        ensures fresh { IfOk result (λ r. AreFresh s.now r.0.table r.1.list.items) }
    {
        let parts = SchedParts::start(alloc, s)?;
        let (locks, passes) = Locks::start(alloc, parts)?;
        Ok((Smp { locks }, passes))
    }
}
