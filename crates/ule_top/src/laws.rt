ghost use Rattle.ule_top.specs.Laws.{RunsAreFoundLegal};

/// The law of `run` and `check`: whatever `check` comes to on a scenario with the trace that `run`
/// writes of it right behind it, it is not refused and not denied. It does nothing when it runs.
pub fn runs_are_found_legal()
    ensures { RunsAreFoundLegal }
{}
