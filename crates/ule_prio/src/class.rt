ghost use Rattle.std.specs.Prelude.{◌≡◌};
ghost use Rattle.ule_prio.specs.Class.{is_base_of};

use crate::ids::Priority;
use crate::ranges::{PRI_MAX_ITHD, PRI_MAX_REALTIME, PRI_MIN_IDLE, PRI_MIN_REALTIME};

/// The scheduling class of a thread, after `priority.h`'s `PRI_ITHD`, `PRI_REALTIME`, `PRI_FIFO`,
/// `PRI_TIMESHARE` and `PRI_IDLE`.
#[derive(Clone, Copy, Debug, PartialEq, Eq)]
pub enum Class {
    /// An interrupt thread.
    Ithd,
    /// A realtime thread that shares its priority in slices.
    Rt,
    /// A realtime thread that runs until it gives way.
    Fifo,
    /// A timeshare thread, whose base priority is computed.
    Ts,
    /// A thread that runs where no other wants to.
    Idle,
}

/// Whether a thread of this class may be declared with this base priority. No priority is
/// declared for a timeshare thread, so for that class the answer is `false`.
pub fn allows(c: Class, p: Priority) -> bool
    ensures { result ≡ is_base_of c p }
{
    match c {
        Class::Ithd => p.0 <= PRI_MAX_ITHD,
        Class::Rt | Class::Fifo => PRI_MIN_REALTIME <= p.0 && p.0 <= PRI_MAX_REALTIME,
        Class::Ts => false,
        Class::Idle => PRI_MIN_IDLE <= p.0,
    }
}
