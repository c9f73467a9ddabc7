// The fields of a tested line are tested again, and written.
ghost use Rattle.std.specs.Prelude.{◌≡◌, ◌≤◌, true, length, Ok, IfOk};
ghost use Rattle.text.specs.Fields.{fields_left};
ghost use Rattle.memory.specs.View.{store_of};
ghost use Rattle.reply.specs.Brief.{said_in_brief, ShowableBrief};
ghost use Rattle.engine.specs.Gives.{GivesBrief, Hears};
ghost use Rattle.engine.specs.View.{ledger_of, read_in};
ghost use Rattle.ledger.specs.Ledger.{living};
ghost use Rattle.apart.specs.Testing.{holds, put_into, write};
ghost use Rattle.apart.specs.Verdicts.{passed_of};

use crate::lines::{Found, TestedLine};
use engine::{Session, set_fields};
use ledger::mode::Mode;
use ledger::refusal::Refusal;
use line::parts::{Parts, parts_of};
use make::Make;
use memory::Memory;
use reply::brief::{Brief, BriefReply};

// Whether the block that a test found holds a record of the kind found there.
fn holds<M: Make>(memory: &Memory<'_, M>, found: Found) -> bool
    ensures value { result ≡ holds (store_of M.Make memory.now.pool) found.index.number found.kind }
{
    match memory.get(found.index) {
        Some(record) => found.kind == M::kind(&record),
        None => false,
    }
}

// Writes the fields of a line into the block that its test found, if it holds a record of that kind still and the make takes the line.
fn put_into<M: Make>(
    memory: &mut Memory<'_, M>,
    parts: Parts<'_>,
    found: Found,
) -> Result<Brief, Refusal>
    ensures { GivesBrief M.Make memory.old.pool memory.new.pool parts.entry.command result (λ L. put_into M.Make.spec L parts.entry.command found.index.number found.kind (fields_left parts.entry.arguments.fields)) }
{
    let arguments = parts.arguments;
    if !holds(memory, found) || arguments.count != M::field_count(found.kind) + 1 {
        return Err(Refusal::Wrong);
    }
    set_fields(memory, found.index, arguments.rest())
}

// Spends a tested line: writes its fields, if the mode is on.
pub(crate) fn spend<M: Make>(
    memory: &mut Memory<'_, M>,
    session: &Session,
    tested: TestedLine<'_>,
) -> Result<BriefReply, Refusal>
    ensures hears { Hears M.Make memory.old.pool memory.new.pool (said_in_brief (read_in M.Make.spec (store_of M.Make memory.new.pool)) result) (ledger_of M.Make session.now memory.new.pool) (write M.Make.spec (ledger_of M.Make session.now memory.old.pool) (passed_of tested.entry)) }
    ensures shows { IfOk result (λ x. ShowableBrief (living (store_of M.Make memory.new.pool)) x.told) }
{
    if session.mode == Mode::Off {
        return Err(Refusal::ModeOff);
    }
    let parts = parts_of(tested.line).ok_or(Refusal::Wrong)?;
    let told = put_into(memory, parts, tested.found)?;
    Ok(BriefReply {
        command: parts.command,
        told,
    })
}
