// A command of the right count is carried out.
ghost use Rattle.std.specs.Prelude.{◌≡◌};
ghost use Rattle.text.specs.Fields.{fields_left};
ghost use Rattle.ledger.specs.Records.{target};
ghost use Rattle.ledger.specs.Replies.{ends};
ghost use Rattle.ledger.specs.Ledger.{talkgroups};
ghost use Rattle.ledger.specs.Steps.{done, read_or_set, at, says};
ghost use Rattle.engine.specs.Gives.{GivesBrief};

use crate::creating::{create_below, create_system, create_under_system};
use crate::deleting::delete;
use crate::setting::set_fields;
use crate::target::find_target;
use chain::{Branch, Chain};
use ledger::command::Command;
use ledger::refusal::Refusal;
use line::parts::Parts;
use make::{Kind, Make};
use memory::Memory;
use reply::brief::Brief;

// TRN: head and tail of the talkgroup groups of the trunked system that the line names.
fn tell_talkgroups<M: Make>(
    memory: &mut Memory<'_, M>,
    command: Command,
    text: &[u8],
) -> Result<Brief, Refusal>
    ensures { GivesBrief M.Make memory.old.pool memory.new.pool command result (λ L. at L (target L command text.now) (λ i. says L command (ends (talkgroups L i)))) }
{
    let owner = find_target(memory, command, text)?;
    let groups = Chain::Members {
        owner,
        branch: Branch::Second,
    };
    Ok(Brief::Ends(memory.head(groups), memory.tail(groups)))
}

// SIN, SIF, GIN, CIN, TIN, TFQ: an index alone reads the record, an index and every field set it.
fn read_or_set<M: Make>(memory: &mut Memory<'_, M>, parts: Parts<'_>) -> Result<Brief, Refusal>
    ensures { GivesBrief M.Make memory.old.pool memory.new.pool parts.entry.command result (λ L. read_or_set M.Make.spec L parts.entry.command (fields_left parts.entry.arguments.fields)) }
{
    let arguments = parts.arguments;
    let x = find_target(memory, parts.command, arguments.first())?;
    if arguments.count == 1 {
        Ok(Brief::Record(x))
    } else {
        set_fields(memory, x, arguments.rest())
    }
}

// Carries out a command that was given the right count of fields.
pub(crate) fn carry_out<M: Make>(
    memory: &mut Memory<'_, M>,
    parts: Parts<'_>,
) -> Result<Brief, Refusal>
    ensures { GivesBrief M.Make memory.old.pool memory.new.pool parts.entry.command result (λ L. done M.Make.spec L parts.entry.command (fields_left parts.entry.arguments.fields)) }
{
    let command = parts.command;
    let arguments = parts.arguments;
    match command {
        // The mode is turned before, and the store stays.
        Command::Prg | Command::Epg => Ok(Brief::Done),
        Command::Clr => {
            memory.clear();
            Ok(Brief::Done)
        }
        Command::Sct => Ok(Brief::Count(memory.system_count())),
        Command::Rmb => Ok(Brief::Count(memory.spare())),
        Command::Sih => Ok(Brief::Index(memory.head(Chain::Root))),
        Command::Sit => Ok(Brief::Index(memory.tail(Chain::Root))),
        Command::Csy => create_system(memory, arguments.first()),
        Command::Agc => {
            let text = arguments.first();
            create_under_system(memory, command, text, Branch::First, Kind::ChannelGroup)
        }
        Command::Ast => {
            let text = arguments.first();
            create_under_system(memory, command, text, Branch::First, Kind::Site)
        }
        Command::Agt => {
            let text = arguments.first();
            create_under_system(memory, command, text, Branch::Second, Kind::TalkgroupGroup)
        }
        Command::Acc | Command::Act => create_below(memory, command, arguments.first()),
        Command::Dsy | Command::Dgr | Command::Dch => delete(memory, command, arguments.first()),
        Command::Fwd => {
            let x = find_target(memory, command, arguments.first())?;
            Ok(Brief::Index(memory.next(x)))
        }
        Command::Rev => {
            let x = find_target(memory, command, arguments.first())?;
            Ok(Brief::Index(memory.previous(x)))
        }
        Command::Trn => tell_talkgroups(memory, command, arguments.first()),
        Command::Sin | Command::Sif | Command::Gin | Command::Cin | Command::Tin | Command::Tfq =>
            read_or_set(memory, parts),
    }
}
