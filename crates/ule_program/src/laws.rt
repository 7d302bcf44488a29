ghost use Rattle.ule_program.specs.Laws.{CommandsLead, RepliesLead};

/// The law of commands: a valid command comes to at most the items that it is charged, each of which
/// names what there is and has the hand that it needs, adds its time, and forks its thread. It does
/// nothing when it runs.
pub fn commands_lead()
    ensures { CommandsLead }
{}

/// The law of replies: each leads to fewer items than were left, which are as sound, and leaves in
/// the worker's hand what the change of a word says. It does nothing when it runs.
pub fn replies_lead()
    ensures { RepliesLead }
{}
