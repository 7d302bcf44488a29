ghost use Rattle.ule_trace.specs.Laws.{WrittenIsReadBack};

/// The law of the way back: what `write_trace` writes of an outcome whose numbers are in the ranges
/// of the trace is read by `read_trace` as the same entries and final lines. It does nothing when
/// it runs.
pub fn written_is_read_back()
    ensures { WrittenIsReadBack }
{}
