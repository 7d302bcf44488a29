ghost use Rattle.ule_top.specs.Example.{OneYieldIsTraced, LostTurnIsTraced};

/// The law of the smallest example: the trace of one thread and one `yield` is the text of
/// `examples/yield.trace`, by computing with the definitions alone. It does nothing when it runs.
pub fn one_yield_is_traced()
    ensures { OneYieldIsTraced }
{}

/// The law of the example of a lost turn: its trace is the text of `examples/lost_turn.trace`, by
/// computing with the definitions alone. It does nothing when it runs.
pub fn lost_turn_is_traced()
    ensures { LostTurnIsTraced }
{}
