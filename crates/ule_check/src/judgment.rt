ghost use Rattle.std.specs.Prelude.{◌≡◌, IfOk};
ghost use Rattle.ule_check.specs.Judged.{judged};

use crate::judge::Judge;
use crate::verdicts::Verdict;
use std::alloc::Global;
use ule_io::Memory;
use ule_types::{Outcome, Setup};

/// The judgment of a trace of a setup, in time proportional to its entries. All memory is taken
/// before the first entry is judged.
pub fn verdict(alloc: Global, s: &Setup, trace: &Outcome) -> Result<Verdict, Memory>
    ensures { IfOk result (λ v. v ≡ judged s.now trace.now) }
{
    let mut judge = Judge::start(alloc, s)?;
    let mut lines = Outcome::with_room(alloc, 0)?;
    Ok(judge.judge(s, trace, &mut lines))
}
