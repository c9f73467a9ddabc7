// The fields of a record are set.
ghost use Rattle.std.specs.Prelude.{◌≡◌, ◌≤◌, true, length};
ghost use Rattle.text.specs.Fields.{fields_left};
ghost use Rattle.ledger.specs.Ledger.{living, holding};
ghost use Rattle.ledger.specs.Steps.{sets};
ghost use Rattle.memory.specs.View.{store_of};
ghost use Rattle.engine.specs.Gives.{Gives, GivesBrief};
ghost use Rattle.ledger.specs.declared.command.Command.{Command};

use crate::telling::in_full;
use chain::Index;
use ledger::refusal::Refusal;
use line::texts::fields_legal;
use make::Make;
use memory::Memory;
use reply::brief::Brief;
use reply::told::Told;
use text::field::Fields;

// Tests every field of a set line, and writes them all, or none.
pub fn set_fields<M: Make>(
    memory: &mut Memory<'_, M>,
    x: Index,
    fields: Fields<'_>,
) -> Result<Brief, Refusal>
    requires living { living (store_of M.Make memory.old.pool) x.number ≡ true }
    ensures { (c : Command) → GivesBrief M.Make memory.old.pool memory.new.pool c result (λ L. sets M.Make.spec L c x.number (holding L x.number) (fields_left fields.entry)) }
{
    let record = memory.read(x);
    if fields_legal::<M>(M::kind(&record), fields) {
        memory.write(x, fields);
        Ok(Brief::Done)
    } else {
        Err(Refusal::Wrong)
    }
}

// The same, and what it tells is told in full, as `reply::told::say` writes it.
pub fn set<M: Make>(
    memory: &mut Memory<'_, M>,
    x: Index,
    fields: Fields<'_>,
) -> Result<Told<M::Record>, Refusal>
    requires living { living (store_of M.Make memory.old.pool) x.number ≡ true }
    ensures { (c : Command) → Gives M.Make memory.old.pool memory.new.pool c result (λ L. sets M.Make.spec L c x.number (holding L x.number) (fields_left fields.entry)) }
{
    let answer = set_fields(memory, x, fields);
    in_full(memory, answer)
}
