// A line is judged in the order of refusals, and what it asks is done.
ghost use Rattle.std.specs.Prelude.{◌≡◌, ◌≤◌, [], ◌∷◌, length, if◌then◌else◌, ◌==◌, Some, Ok, Err, IfOk};
ghost use Rattle.text.specs.Fields.{fields_left};
ghost use Rattle.ledger.specs.declared.refusal.Refusal.TheVariants.{Wrong};
ghost use Rattle.ledger.specs.Lines.{known, step};
ghost use Rattle.reply.specs.Brief.{said_in_brief, ShowableBrief};
ghost use Rattle.reply.specs.declared.brief.Brief.TheVariants.{Done};
ghost use Rattle.engine.specs.Gives.{Hears, brief_by};
ghost use Rattle.engine.specs.View.{ledger_of, read_in};
ghost use Rattle.ledger.specs.Ledger.{living};
ghost use Rattle.memory.specs.View.{store_of};

use crate::running::carry_out;
use crate::session::Session;
use ledger::command::Command;
use ledger::mode::Mode;
use ledger::refusal::Refusal;
use line::parts::{Parts, read_line};
use make::Make;
use memory::Memory;
use reply::brief::{Brief, BriefReply};

// PRG, EPG: turns the mode, if no field was given.
fn turn(mode: &mut Mode, to: Mode, count: usize) -> Result<Brief, Refusal>
    ensures mode { mode.new ≡ (if count == 0 then to else mode.old) }
    ensures value { result ≡ (if count == 0 then Ok Done else Err Wrong) }
{
    if count != 0 {
        return Err(Refusal::Wrong);
    }
    *mode = to;
    Ok(Brief::Done)
}

// Does what a known command asks, if the mode allows it and the count of its fields is right.
fn run<M: Make>(
    memory: &mut Memory<'_, M>,
    session: &mut Session,
    parts: Parts<'_>,
) -> Result<Brief, Refusal>
    ensures hears { Hears M.Make memory.old.pool memory.new.pool (brief_by M.Make.spec (store_of M.Make memory.new.pool) parts.entry.command result) (ledger_of M.Make session.new memory.new.pool) (known M.Make.spec (ledger_of M.Make session.old memory.old.pool) (Some parts.entry.command) (fields_left parts.entry.arguments.fields)) }
    ensures shows { IfOk result (ShowableBrief (living (store_of M.Make memory.new.pool))) }
{
    let command = parts.command;
    let count = parts.arguments.count;
    match (&mut session.mode, command) {
        (mode, Command::Prg) => turn(mode, Mode::On, count),
        (mode, Command::Epg) => turn(mode, Mode::Off, count),
        (Mode::Off, _) => Err(Refusal::ModeOff),
        (Mode::On, _) => {
            if command.takes().counts::<M>(count) {
                carry_out(memory, parts)
            } else {
                Err(Refusal::Wrong)
            }
        }
    }
}

// Judges a line, and does what it asks.
pub(crate) fn hear<M: Make>(
    memory: &mut Memory<'_, M>,
    session: &mut Session,
    line: &[u8],
) -> Result<BriefReply, Refusal>
    ensures hears { Hears M.Make memory.old.pool memory.new.pool (said_in_brief (read_in M.Make.spec (store_of M.Make memory.new.pool)) result) (ledger_of M.Make session.new memory.new.pool) (step M.Make.spec (ledger_of M.Make session.old memory.old.pool) line.now) }
    ensures shows { IfOk result (λ x. ShowableBrief (living (store_of M.Make memory.new.pool)) x.told) }
{
    let parts = read_line(line)?;
    let told = run(memory, session, parts)?;
    Ok(BriefReply {
        command: parts.command,
        told,
    })
}
