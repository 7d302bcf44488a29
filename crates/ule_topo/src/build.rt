ghost use Rattle.std.specs.Prelude.{◌≡◌, ◌≤◌, length};
ghost use Rattle.ule_topo.specs.Build.{child_of_line, group_in, group_of_line, is_parent, overlaps, place_of_id, root_of_line};

use crate::fault::TopoFault;
use crate::group::{Group, GroupIx, GroupLine};
use crate::mask::{all_cpus, is_inside, meets};

/// The depth of the innermost groups.
const MAX_DEPTH: u8 = 4;

/// The greatest number of a group.
const MAX_ID: u8 = 14;

// The place of the group with a number.
fn place_of_id(groups: &[Group], id: u8) -> Option<usize>
    ensures { result ≡ place_of_id id groups.now }
{
    groups.iter().position(|k| k.id == id)
}

// Whether a parent is the group at a place.
fn is_parent(p: u8, parent: Option<GroupIx>) -> bool
    ensures { result ≡ is_parent p parent }
{
    match parent {
        Some(q) => q.0 == p,
        None => false,
    }
}

// Whether one of some CPUs is in a group that lies in the one at a place.
fn overlaps(groups: &[Group], p: u8, cpus: u16) -> bool
    ensures { result ≡ overlaps p cpus groups.now }
{
    groups
        .iter()
        .any(|k| is_parent(p, k.parent) && meets(k.cpus, cpus))
}

// The group of the first line.
fn root_of_line(cpus: u8, l: &GroupLine) -> Result<Group, TopoFault>
    requires { cpus ≤ 16 }
    ensures { result ≡ root_of_line cpus l.now }
{
    if l.parent.is_none() && l.cpus == all_cpus(cpus) {
        Ok(Group {
            id: l.id,
            parent: None,
            cpus: l.cpus,
            depth: 1,
        })
    } else {
        Err(TopoFault::NoRoot)
    }
}

// The group of a line in its parent, which stands at this place.
fn group_in(parent: Group, p: u8, groups: &[Group], l: &GroupLine) -> Result<Group, TopoFault>
    ensures { result ≡ group_in parent p groups.now l.now }
{
    if !is_inside(l.cpus, parent.cpus) {
        return Err(TopoFault::OutsideParent);
    }
    if overlaps(groups, p, l.cpus) {
        return Err(TopoFault::Overlap);
    }
    if parent.depth >= MAX_DEPTH {
        return Err(TopoFault::TooDeep);
    }
    Ok(Group {
        id: l.id,
        parent: Some(GroupIx(p)),
        cpus: l.cpus,
        depth: parent.depth + 1,
    })
}

// The group of a later line.
fn child_of_line(groups: &[Group], l: &GroupLine) -> Result<Group, TopoFault>
    requires { length groups.now ≤ 15 }
    ensures { result ≡ child_of_line l.now.parent groups.now l.now }
{
    let Some(id) = l.parent else {
        return Err(TopoFault::BadParent);
    };
    let Some(p) = place_of_id(groups, id) else {
        return Err(TopoFault::BadParent);
    };
    group_in(groups[p], p as u8, groups, l)
}

/// The group of a line behind the groups of the lines before it, or the line's first fault.
#[tactic(auto, unfolding(crate::specs::Build::group_of_line))]
pub(crate) fn group_of_line(cpus: u8, groups: &[Group], l: &GroupLine) -> Result<Group, TopoFault>
    requires cpus { cpus ≤ 16 }
    requires few { length groups.now ≤ 15 }
    ensures { result ≡ group_of_line cpus groups.now l.now }
{
    if l.id > MAX_ID || place_of_id(groups, l.id).is_some() {
        return Err(TopoFault::BadId);
    }
    if groups.is_empty() {
        root_of_line(cpus, l)
    } else {
        child_of_line(groups, l)
    }
}
