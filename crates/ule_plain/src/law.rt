ghost use Rattle.ule_plain.specs.ReadBack.{PlainTextsAreReadBack};

/// The law of plain texts: what `write_setup` writes of a setup is read as the same setup, whatever
/// the setup is. It does nothing when it runs.
pub fn plain_texts_are_read_back()
    ensures { PlainTextsAreReadBack }
{}
