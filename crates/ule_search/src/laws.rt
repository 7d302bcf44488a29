ghost use Rattle.ule_search.specs.Laws.{HighestIsGreatest, LowestIsLeast};

/// The laws of the searches: a CPU that is found may be found, and no other that may has a better
/// list; and none is found exactly where none may be. It does nothing when it runs.
pub fn searches_find_the_best()
    ensures lowest { LowestIsLeast }
    ensures highest { HighestIsGreatest }
{}
