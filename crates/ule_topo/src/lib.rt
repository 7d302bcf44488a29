//! Sets of CPUs, what looks at CPUs see, and the tree of groups of CPUs, after `struct cpu_group`
//! of `smp.h` and the fields of `struct tdq` that `cpu_search` reads.
#![tactic(auto)]

pub use fault::{BuildFault, TopoFault};
pub use group::{Group, GroupIx, GroupLine};
pub use look::{Looks, Summary};
pub use mask::{all_cpus, has_cpu, without_cpu};
pub use topology::Topology;

pub mod build;
pub mod fault;
pub mod group;
pub mod laws;
pub mod look;
pub mod mask;
pub mod topology;
