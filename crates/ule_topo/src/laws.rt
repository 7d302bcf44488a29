ghost use Rattle.ule_topo.specs.Inside.{BehindIsInside, DeepestIsInnermost, OutwardByParents, OutwardMeetsHolders};

/// The law of the innermost group of a CPU: it has the CPU, and no group behind it has. It does
/// nothing when it runs.
pub fn deepest_is_innermost()
    ensures { DeepestIsInnermost }
{}

/// The law of the order of groups: of those that have a CPU of a group, the ones behind it are the
/// ones strictly inside it. It does nothing when it runs.
pub fn groups_behind_are_inside()
    ensures { BehindIsInside }
{}

/// The laws of the way outward: it goes from parent to parent, and meets every group that the first
/// one lies inside. It does nothing when it runs.
pub fn outward_goes_by_parents()
    ensures parents { OutwardByParents }
    ensures holders { OutwardMeetsHolders }
{}
