// The law of the two calls: the function's contract is the law, and the function itself does nothing.
ghost use Rattle.apart.specs.Laws.{WrittenAtOnce};

// A line that passes its test and is written at once gets what the line gets that is given whole.
pub fn written_at_once()
    ensures { WrittenAtOnce }
{}
