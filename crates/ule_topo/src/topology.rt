ghost use Rattle.std.specs.Prelude.{◌≡◌, ◌<◌, ◌≤◌, length, IfNone, IfSome, true, ℕ};
ghost use Rattle.ule_topo.specs.Mask.{has_cpu};
ghost use Rattle.ule_topo.specs.Tree.{groups_with, last_group};

use crate::build::group_of_line;
use crate::fault::BuildFault;
use crate::group::{Group, GroupIx, GroupLine};
use crate::mask::{all_cpus, has_cpu};
use std::marker::Model;
use ule_prio::Cpu;

/// The groups of CPUs, after the tree of `struct cpu_group` that `smp_topo` gives: a fixed table
/// that can be copied, of at most 15 groups.
#[derive(Clone, Copy)]
pub struct Topology {
    cpus: u8,
    len: u8,
    table: [Group; 15],
}

impl Model for Topology {
    ghost use Rattle.ule_topo.specs.Tree.{Tree};

    ghost Value = { Tree };

    ghost use Rattle.ule_topo.specs.Table.{tree_kept, IsTable, table_of};
    ghost use Rattle.ule_topo.specs.TableLaw.{table_kept};

    ghost view = { tree_kept };

    ghost invariant = { IsTable };

    ghost inverse = { table_of };

    ghost inverse_ok = { table_kept };
}

impl Topology {
    ghost use Rattle.ule_topo.specs.Build.{built};
    ghost use Rattle.ule_topo.specs.Tree.{IsTree, deepest, mask_of, parent_of};

    /// The topology of group lines, or the first line with a fault. Where there is no line it is
    /// one root of all CPUs.
    pub fn build(cpus: u8, lines: &[GroupLine]) -> Result<Topology, BuildFault>
        requires some { 1 ≤ cpus }
        requires few { cpus ≤ 16 }
        requires fit { length lines.now ≤ 15 }
        ensures { result ≡ built cpus lines.now }
    {
        let blank = Group {
            id: 0,
            parent: None,
            cpus: 0,
            depth: 0,
        };
        let mut table = [blank; 15];
        if lines.is_empty() {
            table[0] = Group {
                id: 0,
                parent: None,
                cpus: all_cpus(cpus),
                depth: 1,
            };
            return Ok(Topology {
                cpus,
                len: 1,
                table,
            });
        }
        for (i, l) in lines.iter().enumerate() {
            match group_of_line(cpus, &table[..i], l) {
                Ok(group) => table[i] = group,
                Err(fault) => {
                    return Err(BuildFault {
                        line: i as u8,
                        fault,
                    });
                }
            }
        }
        Ok(Topology {
            cpus,
            len: lines.len() as u8,
            table,
        })
    }

    /// The groups, the root first, each behind the one that it lies in.
    pub fn groups(&self) -> &[Group]
        ensures groups { result.now ≡ self.now.groups }
        ensures tree { IsTree self.now.cpus self.now.groups }
        ensures some { 1 ≤ length self.now.groups }
        ensures few { length self.now.groups ≤ 15 }
    {
        &self.table[..usize::from(self.len)]
    }

    /// How many CPUs there are, 1..=16.
    pub fn cpus(&self) -> u8
        ensures number { result ≡ self.now.cpus }
        ensures some { 1 ≤ self.now.cpus }
        ensures few { self.now.cpus ≤ 16 }
    {
        self.cpus
    }

    /// The group of all CPUs.
    pub fn root(&self) -> GroupIx
        ensures place { result ≡ 0 }
        ensures there { result < length self.now.groups }
    {
        let _ = &self.len;
        GroupIx(0)
    }

    /// The innermost group that has a CPU.
    pub fn deepest(&self, c: Cpu) -> GroupIx
        ensures place { result ≡ deepest self.now c }
        ensures there { result < length self.now.groups }
    {
        GroupIx(last_with(self.groups(), c))
    }

    /// The group that a group lies in; none for the root.
    pub fn parent(&self, g: GroupIx) -> Option<GroupIx>
        requires { g < length self.now.groups }
        ensures place { result ≡ parent_of self.now g }
        ensures root { IfNone result (g ≡ 0) }
        ensures outward { IfSome result (λ p. p < g) }
        ensures wider { IfSome result (λ p. (c : ℕ) → has_cpu (mask_of self.now g) c ≡ true → has_cpu (mask_of self.now p) c ≡ true) }
    {
        self.groups()[usize::from(g.0)].parent
    }

    /// The CPUs of a group: bit c for CPU c.
    pub fn mask(&self, g: GroupIx) -> u16
        requires { g < length self.now.groups }
        ensures cpus { result ≡ mask_of self.now g }
        ensures there { (c : ℕ) → has_cpu (mask_of self.now g) c ≡ true → c < self.now.cpus }
    {
        self.groups()[usize::from(g.0)].cpus
    }
}

// The place of the last of some groups that has a CPU; 0 where none has it.
fn last_with(groups: &[Group], c: Cpu) -> u8
    requires some { 1 ≤ length groups.now }
    requires few { length groups.now ≤ 15 }
    ensures place { result ≡ last_group (groups_with groups.now c) }
    ensures there { result < length groups.now }
{
    let mut found = 0;
    for (i, k) in groups.iter().enumerate() {
        if has_cpu(k.cpus, c) {
            found = i as u8;
        }
    }
    found
}
