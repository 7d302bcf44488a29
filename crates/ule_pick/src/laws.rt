ghost use Rattle.ule_pick.specs.Choice.{SomethingIsFound};

/// The law of the choice's last search: among all CPUs it finds one. It does nothing when it runs.
pub fn something_is_found()
    ensures { SomethingIsFound }
{}
