ghost use Rattle.std.specs.Prelude.{◌≡◌};
ghost use Rattle.ule_topo.specs.Faults.{code_of_fault};

use thiserror::Error;

/// What is wrong with a group line. Of several faults of one line `BadId` comes first, then the
/// others in this order.
#[derive(Clone, Copy, Debug, PartialEq, Eq, Error)]
pub enum TopoFault {
    /// The first line names a parent, or hasn't all CPUs.
    #[error("the first group is no root of all CPUs")]
    NoRoot,
    /// A later line names no parent, or none of an earlier line.
    #[error("the parent is no earlier group")]
    BadParent,
    /// One of its CPUs isn't in its parent.
    #[error("a CPU is outside the parent")]
    OutsideParent,
    /// One of its CPUs is in an earlier line with the same parent.
    #[error("a CPU is in another group of the same parent")]
    Overlap,
    /// Its parent lies in three groups.
    #[error("the parent is of the fourth level")]
    TooDeep,
    /// Its number is above 14, or was used by an earlier line.
    #[error("the number is out of range or used already")]
    BadId,
}

impl TopoFault {
    /// The fault's number, 1..=6 in the order of the variants.
    pub fn code(self) -> u8
        ensures { result ≡ code_of_fault self }
    {
        match self {
            TopoFault::NoRoot => 1,
            TopoFault::BadParent => 2,
            TopoFault::OutsideParent => 3,
            TopoFault::Overlap => 4,
            TopoFault::TooDeep => 5,
            TopoFault::BadId => 6,
        }
    }
}

/// The first group line that has a fault.
#[derive(Clone, Copy, Debug, PartialEq, Eq, Error)]
#[error("group line {line}: {fault}")]
pub struct BuildFault {
    /// Its place, counted from 0.
    pub line: u8,
    pub fault: TopoFault,
}
