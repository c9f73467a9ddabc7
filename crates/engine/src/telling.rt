// From what a command tells in brief to what it tells in full.
ghost use Rattle.std.specs.Prelude.{◌≡◌, IfOk};
ghost use Rattle.ledger.specs.Ledger.{living};
ghost use Rattle.ledger.specs.declared.command.Command.{Command};
ghost use Rattle.memory.specs.View.{store_of};
ghost use Rattle.reply.specs.Brief.{ShowableBrief};
ghost use Rattle.reply.specs.Told.{Showable};
ghost use Rattle.engine.specs.Gives.{said_by, brief_by};

use crate::records::told_of;
use ledger::refusal::Refusal;
use make::Make;
use memory::Memory;
use reply::brief::Brief;
use reply::told::Told;

// The same answer in full: a record with its texts and links, as they stand in the memory, in place of its block.
pub(crate) fn in_full<M: Make>(
    memory: &Memory<'_, M>,
    answer: Result<Brief, Refusal>,
) -> Result<Told<M::Record>, Refusal>
    requires showable { IfOk answer (ShowableBrief (living (store_of M.Make memory.now.pool))) }
    ensures said { (c : Command) → said_by M.Make c result ≡ brief_by M.Make.spec (store_of M.Make memory.now.pool) c answer }
    ensures shows { IfOk result Showable }
{
    Ok(match answer? {
        Brief::Done => Told::Done,
        Brief::Index(index) => Told::Index(index),
        Brief::Count(n) => Told::Count(n),
        Brief::Ends(head, tail) => Told::Ends(head, tail),
        Brief::Record(x) => told_of(memory, x),
    })
}
