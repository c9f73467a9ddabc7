// The commands that create a record.
ghost use Rattle.std.specs.Prelude.{◌≡◌, ◌≤◌, [], ◌∷◌, length, Ok};
ghost use Rattle.chain.specs.Entry.{number};
ghost use Rattle.chain.specs.Blocks.{Living};
ghost use Rattle.make.specs.Data.{type_named};
ghost use Rattle.ledger.specs.Ledger.{holding};
ghost use Rattle.ledger.specs.Records.{target, member_kind};
ghost use Rattle.ledger.specs.Steps.{at, creates, new_system};
ghost use Rattle.ledger.specs.declared.command.Command.{Command};
ghost use Rattle.ledger.specs.declared.command.Command.TheVariants.{Csy};
ghost use Rattle.memory.specs.View.{store_of};
ghost use Rattle.engine.specs.Gives.{GivesBrief};
ghost use Rattle.engine.specs.Chains.{chain_under};
ghost use Rattle.chain.specs.declared.link.Branch.TheVariants.{First};

use crate::target::find_target;
use chain::{Branch, Chain};
use ledger::command::Command;
use ledger::refusal::Refusal;
use line::records::member_kind;
use make::{Kind, Make, type_named};
use memory::Memory;
use reply::brief::Brief;

// The chain of systems has at most this many records.
const MOST_SYSTEMS: u32 = 500;

// A new record at the tail of a chain, which is that of the systems or whose owner is living.
fn create<M: Make>(memory: &mut Memory<'_, M>, chain: Chain, kind: Kind, system_type: u8) -> Brief
    requires living { Living (store_of M.Make memory.old.pool).blocks chain }
    ensures { (c : Command) → GivesBrief M.Make memory.old.pool memory.new.pool c (Ok result) (λ L. creates M.Make.spec L c (number chain) kind system_type) }
{
    Brief::Index(memory.create(chain, kind, system_type))
}

// CSY: a new system of a type that the make has.
pub(crate) fn create_system<M: Make>(
    memory: &mut Memory<'_, M>,
    text: &[u8],
) -> Result<Brief, Refusal>
    ensures { GivesBrief M.Make memory.old.pool memory.new.pool Csy result (λ L. new_system M.Make.spec L (type_named M.Make.spec.types text.now)) }
{
    let Some(system_type) = type_named::<M>(text) else {
        return Err(Refusal::Wrong);
    };
    if memory.system_count() >= MOST_SYSTEMS {
        return Ok(Brief::Index(None));
    }
    Ok(create(memory, Chain::Root, Kind::System, system_type))
}

// AGC, AST, AGT: a new site or group under the system that the line names.
pub(crate) fn create_under_system<M: Make>(
    memory: &mut Memory<'_, M>,
    command: Command,
    text: &[u8],
    branch: Branch,
    kind: Kind,
) -> Result<Brief, Refusal>
    ensures { GivesBrief M.Make memory.old.pool memory.new.pool command result (λ L. at L (target L command text.now) (λ i. creates M.Make.spec L command (chain_under branch i) kind 0)) }
{
    let owner = find_target(memory, command, text)?;
    Ok(create(memory, Chain::Members { owner, branch }, kind, 0))
}

// ACC, ACT: a new channel, trunk frequency or talkgroup under the group or site that the line names.
pub(crate) fn create_below<M: Make>(
    memory: &mut Memory<'_, M>,
    command: Command,
    text: &[u8],
) -> Result<Brief, Refusal>
    ensures { GivesBrief M.Make memory.old.pool memory.new.pool command result (λ L. at L (target L command text.now) (λ i. creates M.Make.spec L command (chain_under First i) (member_kind (holding L i).kind) 0)) }
{
    let owner = find_target(memory, command, text)?;
    let record = memory.read(owner);
    let members = Chain::Members {
        owner,
        branch: Branch::First,
    };
    Ok(create(memory, members, member_kind(M::kind(&record)), 0))
}
