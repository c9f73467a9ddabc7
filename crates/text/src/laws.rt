// The laws of the text layer: each function's contract is a law, and the function itself does nothing.
ghost use Rattle.text.specs.Laws.{NumbersStand, SignedStand, FrequenciesStand, FieldsJoin};

// A number shown is legal, is read back as that number, and is shown again as it stands.
pub fn numbers_stand()
    ensures { NumbersStand }
{}

// The same of numbers with a sign; no sign is shown for 0.
pub fn signed_stand()
    ensures { SignedStand }
{}

// The same of frequencies.
pub fn frequencies_stand()
    ensures { FrequenciesStand }
{}

// The fields of a line, joined by commas, are the line, and no field has a comma.
pub fn fields_join()
    ensures { FieldsJoin }
{}
