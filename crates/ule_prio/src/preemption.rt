ghost use Rattle.std.specs.Prelude.{◌≡◌};
ghost use Rattle.ule_prio.specs.Preemption.{takes_over};

use crate::ids::Priority;
use crate::ranges::{PRI_MAX_INTERACT, PRI_MIN_IDLE};

/// Whether a thread of priority `p` that is ready takes the processor from one of priority `q`
/// that runs, after `sched_shouldpreempt`. `remote`: another CPU's worker asks. `threshold` is
/// the sysctl `preempt_thresh`, 0..=255; 0 lets nothing but an idle thread be preempted. A CPU
/// that runs nothing is asked with `q` = 255.
pub fn preempts(p: Priority, q: Priority, remote: bool, threshold: u8) -> bool
    ensures { result ≡ takes_over p q remote threshold }
{
    if p.0 >= q.0 {
        return false;
    }
    if q.0 >= PRI_MIN_IDLE {
        return true;
    }
    if threshold == 0 {
        return false;
    }
    if p.0 <= threshold {
        return true;
    }
    remote && p.0 <= PRI_MAX_INTERACT && q.0 > PRI_MAX_INTERACT
}
