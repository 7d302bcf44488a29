ghost use Rattle.ule_rounds.specs.LateSwitch.{LateSwitchIsLegal};

/// The law of an example: a legal history in which an entry is earlier than the one before it, by
/// computing with the definitions alone. It does nothing when it runs.
pub fn late_switch_is_legal()
    ensures { LateSwitchIsLegal }
{}
