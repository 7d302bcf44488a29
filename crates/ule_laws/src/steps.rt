ghost use Rattle.ule_model.specs.Frames.{StepIsMade, StepLeavesRest, StepMovesWord, StepTouches};

/// The law of what a step touches: of every well-made world, the step of an event that a worker can
/// perform changes threads within the event's reach alone, which are there afterwards too, and
/// their records by changes at that time. It does nothing when it runs.
pub fn step_touches()
    ensures { StepTouches }
{}

/// The law of words: the one thread whose lock changes by a step is the one whose word the event
/// and its reply change. It does nothing when it runs.
pub fn step_moves_word()
    ensures { StepMovesWord }
{}

/// The law of what a step leaves: the settings, the numbers of each CPU whose queue lock the event
/// doesn't take, and the balance word where it doesn't take that of CPU 0. It does nothing when it
/// runs.
pub fn step_leaves_rest()
    ensures { StepLeavesRest }
{}

/// The law that a well-made world stays well made by a step. It does nothing when it runs.
pub fn step_is_made()
    ensures { StepIsMade }
{}
