ghost use Rattle.ule_check.specs.Laws.{LegalIsWhole, RunsAreLegal, WholeIsLegal};

/// The law of soundness: where a trace is judged legal, however it came about, its entries are a
/// whole legal history of the setup's scripts, and its final lines are those of its end. It does
/// nothing when it runs.
pub fn legal_is_whole()
    ensures { LegalIsWhole }
{}

/// The law of completeness: each trace of a whole legal history and its end is judged legal,
/// whatever the order of its entries. It does nothing when it runs.
pub fn whole_is_legal()
    ensures { WholeIsLegal }
{}

/// The law of runs: each outcome of the rounds of a setup, as `play` gives it, is judged legal. It
/// does nothing when it runs.
pub fn runs_are_legal()
    ensures { RunsAreLegal }
{}
