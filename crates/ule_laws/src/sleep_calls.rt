ghost use Rattle.ule_laws.specs.SleepCalls.{ChainCallsStand, LimboCallsStand};

/// The law of a chain's calls: where its value stands for the threads of a world under its lock,
/// the value after `bed`, `take_out` or `change` stands for them after the event, which puts a
/// thread to sleep there, wakes one, or changes the record of one that sleeps there. It does
/// nothing when it runs.
pub fn chain_calls_stand()
    ensures { ChainCallsStand }
{}

/// The law of limbo's calls: where its value stands for the threads of a world under its lock, the
/// value after `unborn`, `bury`, `hatch` or `change` stands for them after the event, which returns,
/// buries or hatches a thread, or changes the record of one that is there. It does nothing when it
/// runs.
pub fn limbo_calls_stand()
    ensures { LimboCallsStand }
{}
