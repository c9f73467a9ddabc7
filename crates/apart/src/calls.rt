// The two calls: a test of a line, and the write of a tested line.
ghost use Rattle.std.specs.Prelude.{◌≡◌, ℕ, ◌-◌, ◌≤◌, length, slice_index_or};
ghost use Rattle.chain.specs.Entry.{nowhere};
ghost use Rattle.chain.specs.Blocks.{link_of};
ghost use Rattle.chain.specs.View.{blocks_of};
ghost use Rattle.ledger.specs.Answers.{answer_of, buffer_of, next_of, change_of};
ghost use Rattle.memory.specs.View.{Spared};
ghost use Rattle.memory.specs.Table.{changed};
ghost use Rattle.engine.specs.View.{ledger_of};
ghost use Rattle.apart.specs.Testing.{test as judged, write as wrote};
ghost use Rattle.apart.specs.Verdicts.{told_of, tested_of, buffer_after, passed_of};

use crate::judging::judge;
use crate::lines::{TestError, TestedLine, UntestedLine};
use crate::writing::spend;
use engine::{LEAST_BUFFER, Session, say};
use ledger::answer::CallError;
use make::Make;
use memory::Memory;

// Tests a set line, and changes nothing but the buffer, which gets the refusal. A buffer that is too short gets number 1, and a line that passes leaves the buffer.
pub fn test<'a, M: Make>(
    memory: &Memory<'_, M>,
    session: &Session,
    untested: UntestedLine<'a>,
    out: &mut [u8],
) -> Result<TestedLine<'a>, TestError>
    ensures answer { told_of result ≡ tested_of (length out.old) untested.entry.line.now (judged M.Make.spec (ledger_of M.Make session.now memory.now.pool) untested.entry.line.now) }
    ensures buffer { out.new ≡ buffer_after out.old (judged M.Make.spec (ledger_of M.Make session.now memory.now.pool) untested.entry.line.now) }
{
    if out.len() < LEAST_BUFFER {
        return Err(TestError::ShortBuffer);
    }
    match judge(memory, session, untested.line) {
        Ok(tested) => Ok(tested),
        Err(refusal) => Err(TestError::Refused(say(memory, &Err(refusal), out))),
    }
}

// Writes the fields of a tested line, which is spent by this whatever the answer. A buffer that is too short gets number 1, and nothing is done.
pub fn write<M: Make>(
    memory: &mut Memory<'_, M>,
    session: &mut Session,
    tested: TestedLine<'_>,
    out: &mut [u8],
) -> Result<usize, CallError>
    ensures answer { result ≡ answer_of out.old (wrote M.Make.spec (ledger_of M.Make session.old memory.old.pool) (passed_of tested.entry)).said }
    ensures buffer { out.new ≡ buffer_of out.old (wrote M.Make.spec (ledger_of M.Make session.old memory.old.pool) (passed_of tested.entry)).said }
    ensures ledger { ledger_of M.Make session.new memory.new.pool ≡ next_of out.old (ledger_of M.Make session.old memory.old.pool) (wrote M.Make.spec (ledger_of M.Make session.old memory.old.pool) (passed_of tested.entry)).next }
    ensures links { (i : ℕ) → 1 ≤ i → i ≤ memory.new.pool.chains.tables.count → slice_index_or memory.new.pool.chains.tables.links.now (i - 1) nowhere ≡ link_of (blocks_of memory.new.pool.chains) i }
    ensures records { memory.new.pool.elements.now ≡ changed M.Make memory.old.pool.chains.tables.count (change_of out.old (wrote M.Make.spec (ledger_of M.Make session.old memory.old.pool) (passed_of tested.entry)).change) memory.old.pool.elements.now }
    ensures spared { Spared memory.old.pool memory.new.pool }
{
    if out.len() < LEAST_BUFFER {
        return Err(CallError::ShortBuffer);
    }
    let answer = spend(memory, session, tested);
    Ok(say(memory, &answer, out))
}
