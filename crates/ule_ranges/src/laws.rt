ghost use Rattle.ule_ranges.specs.Laws.{PlaysFit};

/// The law of ranges: the numbers in the outcome of the rounds of a setup are in the ranges that a
/// trace has for them, so that `read_trace` takes what `write_trace` writes of it. It does nothing
/// when it runs.
pub fn plays_fit()
    ensures { PlaysFit }
{}
