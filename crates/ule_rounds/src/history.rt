ghost use Rattle.ule_model.specs.History.{RoundsAreLegal, RoundsGoOn};
ghost use Rattle.ule_rounds.specs.RoundPlay.{RoundsArePlays};

/// The law of rounds as plays: for every setup, a legal play of its scheduler's values makes just the
/// entries of its rounds, and leaves each worker behind the last command of its script. It does
/// nothing when it runs.
pub fn rounds_are_plays()
    ensures { RoundsArePlays }
{}

/// The law of the rounds: for every setup, the history of its rounds is legal and whole, it replays
/// to the world at its end, each record keeps its bounds all along, and it ends when all scripts do.
/// It does nothing when it runs.
pub fn rounds_are_legal()
    ensures { RoundsAreLegal }
{}

/// The law that rounds go on: for every setup, each round performs an item where a worker has a
/// further one, so that no turns are lost for good. It does nothing when it runs.
pub fn rounds_go_on()
    ensures { RoundsGoOn }
{}
