// The laws over runs: each function's contract is a law, and the function itself does nothing.
ghost use Rattle.history.specs.Example.{Worked};
ghost use Rattle.history.specs.Faithful.{CoursesStand, RunsStand};
ghost use Rattle.history.specs.Freed.{FreeStands};
ghost use Rattle.history.specs.History.{HistoryStands};
ghost use Rattle.history.specs.Lasting.{AccountStands};
ghost use Rattle.history.specs.Orderly.{TablesStand};
ghost use Rattle.history.specs.Promise.{MomentStands, PromiseStands};

// The blocks that sound tables stand for are orderly.
pub fn tables_stand()
    ensures { TablesStand }
{}

// Of a steady ledger, further lines say what the promise says of chains, blocks and texts.
pub fn moment_stands()
    ensures { MomentStands }
{}

// After any lines, further lines say of the ledger what the promise says of chains, blocks and texts.
pub fn promise_stands()
    ensures { PromiseStands }
{}

// After any lines, the ledger has the records that the lines and what they got tell of.
pub fn history_stands()
    ensures { HistoryStands }
{}

// After any lines, the free blocks are those that the lines and what they got tell of.
pub fn free_stands()
    ensures { FreeStands }
{}

// After any lines, further lines show the records that the lines and what they got tell of.
pub fn account_stands()
    ensures { AccountStands }
{}

// The same where each line was refused or its command done, however the line was given.
pub fn courses_stand()
    ensures { CoursesStand }
{}

// An engine that answers each line as the ledger does, and stands for the ledger, keeps all of these.
pub fn runs_stand()
    ensures { RunsStand }
{}

// An account worked out.
pub fn example_worked()
    ensures { Worked }
{}
