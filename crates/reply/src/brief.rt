// What a line is answered, in brief: of a record its block alone.

use chain::Index;
use ledger::command::Command;

// What a command that is done tells. A record is told by its block: the reply is written while the memory still holds it.
#[derive(Clone, Copy)]
pub enum Brief {
    Done,
    Index(Option<Index>),
    Count(u32),
    Ends(Option<Index>, Option<Index>),
    Record(Index),
}

// A command that is done, and what it tells.
#[derive(Clone, Copy)]
pub struct BriefReply {
    pub command: Command,
    pub told: Brief,
}
