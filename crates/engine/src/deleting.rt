// The commands that delete a record.
ghost use Rattle.std.specs.Prelude.{◌≤◌, length};
ghost use Rattle.ledger.specs.Records.{target};
ghost use Rattle.ledger.specs.Steps.{at, deletes};
ghost use Rattle.engine.specs.Gives.{GivesBrief};

use crate::target::find_target;
use ledger::command::Command;
use ledger::refusal::Refusal;
use make::Make;
use memory::Memory;
use reply::brief::Brief;

// DSY, DGR, DCH: the record that the line names goes, with its members.
pub(crate) fn delete<M: Make>(
    memory: &mut Memory<'_, M>,
    command: Command,
    text: &[u8],
) -> Result<Brief, Refusal>
    ensures { GivesBrief M.Make memory.old.pool memory.new.pool command result (λ L. at L (target L command text.now) (deletes L command)) }
{
    let x = find_target(memory, command, text)?;
    memory.delete(x);
    Ok(Brief::Done)
}
