// A line is tested in the order of refusals, and nothing is written.
ghost use Rattle.std.specs.Prelude.{◌≡◌, [], drop, Some, slice_index_or};
ghost use Rattle.text.specs.Fields.{fields_left};
ghost use Rattle.ledger.specs.Records.{target};
ghost use Rattle.memory.specs.View.{store_of};
ghost use Rattle.engine.specs.View.{ledger_of};
ghost use Rattle.apart.specs.Testing.{named, counted, known, test};
ghost use Rattle.apart.specs.Verdicts.{verdict_of, judged_of};

use crate::lines::{Found, TestedLine};
use engine::{Session, find_target};
use ledger::command::Takes;
use ledger::mode::Mode;
use ledger::refusal::Refusal;
use line::parts::{Parts, read_line};
use line::texts::fields_legal;
use make::{Kind, Make};
use memory::Memory;

// Finds the record that a set line names, and tests every filled field against its kind.
fn judge_fields<M: Make>(memory: &Memory<'_, M>, parts: Parts<'_>) -> Result<Found, Refusal>
    ensures value { verdict_of result ≡ named M.Make.spec (store_of M.Make memory.now.pool) (target (store_of M.Make memory.now.pool) parts.entry.command (slice_index_or (fields_left parts.entry.arguments.fields) 0 [])) (drop 1 (fields_left parts.entry.arguments.fields)) }
{
    let index = find_target(memory, parts.command, parts.arguments.first())?;
    let record = memory.read(index);
    let kind = M::kind(&record);
    if fields_legal::<M>(kind, parts.arguments.rest()) {
        Ok(Found { index, kind })
    } else {
        Err(Refusal::Wrong)
    }
}

// Tests a line whose command sets records of that kind.
fn judge_count<M: Make>(
    memory: &Memory<'_, M>,
    kind: Kind,
    parts: Parts<'_>,
) -> Result<Found, Refusal>
    ensures value { verdict_of result ≡ counted M.Make.spec (store_of M.Make memory.now.pool) parts.entry.command kind (fields_left parts.entry.arguments.fields) }
{
    if parts.arguments.count == M::field_count(kind) + 1 {
        judge_fields(memory, parts)
    } else {
        Err(Refusal::Wrong)
    }
}

// Tests a line whose command is known.
fn judge_parts<M: Make>(
    memory: &Memory<'_, M>,
    session: &Session,
    parts: Parts<'_>,
) -> Result<Found, Refusal>
    ensures value { verdict_of result ≡ known M.Make.spec (ledger_of M.Make session.now memory.now.pool) (Some parts.entry.command) (fields_left parts.entry.arguments.fields) }
{
    match (parts.command.takes(), session.mode) {
        (Takes::RecordOf(_), Mode::Off) => Err(Refusal::ModeOff),
        (Takes::RecordOf(kind), Mode::On) => judge_count(memory, kind, parts),
        _ => Err(Refusal::Wrong),
    }
}

// Tests a whole line.
pub(crate) fn judge<'a, M: Make>(
    memory: &Memory<'_, M>,
    session: &Session,
    line: &'a [u8],
) -> Result<TestedLine<'a>, Refusal>
    ensures value { judged_of line.now result (test M.Make.spec (ledger_of M.Make session.now memory.now.pool) line.now) }
{
    let parts = read_line(line)?;
    let found = judge_parts(memory, session, parts)?;
    Ok(TestedLine { line, found })
}
