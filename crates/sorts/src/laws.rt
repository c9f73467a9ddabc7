// The laws of the sorts of field: each function's contract is a law, and the function itself does nothing.
ghost use Rattle.sorts.specs.Laws.{SortsKeep, PlansKeep};

// Every sort of field keeps the rules for fields.
pub fn sorts_keep()
    ensures law { SortsKeep }
{}

// A table of sorts that passes its test is a make that keeps the rules.
pub fn plans_keep()
    ensures law { PlansKeep }
{}
