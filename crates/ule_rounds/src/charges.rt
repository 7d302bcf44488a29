ghost use Rattle.ule_rounds.specs.Charges.{CommandsKeepToTheirCharges};

/// The law of charges: valid commands give no more items than they are charged, whatever replies
/// their events have, so that the budget of a scenario is a true bound. It does nothing when it runs.
pub fn commands_keep_to_their_charges()
    ensures { CommandsKeepToTheirCharges }
{}
