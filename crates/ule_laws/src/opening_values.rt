ghost use Rattle.ule_model.specs.OpeningValues.{OpeningValuesShow};

/// The law of the start: for every setup, the opening values of
/// its locks and empty hands show its world at the start. It does nothing when it runs.
pub fn opening_values_show()
    ensures { OpeningValuesShow }
{}
