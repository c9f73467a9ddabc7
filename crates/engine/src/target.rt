// The record that a line's index names, if the command is for it.
ghost use Rattle.std.specs.Prelude.{◌≡◌, true, Some, None, MatchResult};
ghost use Rattle.ledger.specs.Ledger.{living};
ghost use Rattle.ledger.specs.Records.{target};
ghost use Rattle.ledger.specs.declared.refusal.Refusal.TheVariants.{Wrong};
ghost use Rattle.memory.specs.View.{store_of};

use chain::Index;
use ledger::command::Command;
use ledger::refusal::Refusal;
use line::index::read_index;
use line::records::is_for;
use make::Make;
use memory::Memory;

// The living record that a text names, if the command is for such a record.
// Command and text stay two parameters: a struct of both would live for one call.
pub fn find_target<M: Make>(
    memory: &Memory<'_, M>,
    command: Command,
    text: &[u8],
) -> Result<Index, Refusal>
    ensures { MatchResult result (λ i. (target (store_of M.Make memory.now.pool) command text.now ≡ Some i.number) × (living (store_of M.Make memory.now.pool) i.number ≡ true)) (λ e. (target (store_of M.Make memory.now.pool) command text.now ≡ None) × (e ≡ Wrong)) }
{
    let x = read_index(text, memory.count()).ok_or(Refusal::Wrong)?;
    let record = memory.get(x).ok_or(Refusal::Wrong)?;
    if is_for(command, M::kind(&record), M::system_type(&record)) {
        Ok(x)
    } else {
        Err(Refusal::Wrong)
    }
}
