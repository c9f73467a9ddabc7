// The call that takes a whole line.
ghost use Rattle.std.specs.Prelude.{◌≡◌, ℕ, ◌-◌, ◌≤◌, slice_index_or};
ghost use Rattle.chain.specs.Entry.{nowhere};
ghost use Rattle.chain.specs.Blocks.{link_of};
ghost use Rattle.chain.specs.View.{blocks_of};
ghost use Rattle.ledger.specs.Answers.{answer_of, buffer_of, next_of, change_of};
ghost use Rattle.ledger.specs.Lines.{step};
ghost use Rattle.memory.specs.View.{Spared};
ghost use Rattle.memory.specs.Table.{changed};
ghost use Rattle.engine.specs.View.{ledger_of};

use crate::hearing::hear;
use crate::saying::say;
use crate::session::Session;
use ledger::answer::CallError;
use make::Make;
use memory::Memory;

// Each of the three calls looks at its buffer first: a closure for what follows would need a longer contract.

// A reply buffer has at least this many bytes.
pub const LEAST_BUFFER: usize = 600;

// Does what a line asks, puts its reply at the front of the buffer, and answers how many bytes that is. A buffer that is too short gets number 1, and nothing is done.
pub fn command<M: Make>(
    memory: &mut Memory<'_, M>,
    session: &mut Session,
    line: &[u8],
    out: &mut [u8],
) -> Result<usize, CallError>
    ensures answer { result ≡ answer_of out.old (step M.Make.spec (ledger_of M.Make session.old memory.old.pool) line.now).said }
    ensures buffer { out.new ≡ buffer_of out.old (step M.Make.spec (ledger_of M.Make session.old memory.old.pool) line.now).said }
    ensures ledger { ledger_of M.Make session.new memory.new.pool ≡ next_of out.old (ledger_of M.Make session.old memory.old.pool) (step M.Make.spec (ledger_of M.Make session.old memory.old.pool) line.now).next }
    ensures links { (i : ℕ) → 1 ≤ i → i ≤ memory.new.pool.chains.tables.count → slice_index_or memory.new.pool.chains.tables.links.now (i - 1) nowhere ≡ link_of (blocks_of memory.new.pool.chains) i }
    ensures records { memory.new.pool.elements.now ≡ changed M.Make memory.old.pool.chains.tables.count (change_of out.old (step M.Make.spec (ledger_of M.Make session.old memory.old.pool) line.now).change) memory.old.pool.elements.now }
    ensures spared { Spared memory.old.pool memory.new.pool }
{
    if out.len() < LEAST_BUFFER {
        return Err(CallError::ShortBuffer);
    }
    let answer = hear(memory, session, line);
    Ok(say(memory, &answer, out))
}
