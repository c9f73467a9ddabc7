// The lines of a text, each answered in turn.
ghost use Rattle.std.specs.Prelude.{◌≡◌, ◌+◌, ◌<◌, ◌≤◌, [], ◌∷◌, ◌++◌, length, take, drop, MatchOption, OnOk};
ghost use Rattle.ledger.specs.Lines.{step};
ghost use Rattle.engine.specs.View.{ledger_of};
ghost use Rattle.report.specs.Report.{lines_from, lines_of, replies, behind};

use engine::{LEAST_BUFFER, Session, command};
use make::Make;
use memory::Memory;
use std::alloc::AllocError;

// A line is cut to this many bytes.
const LINE_BUFFER: usize = 257;

// Where the first line of a text ends, if a CR ends it.
fn line_end(text: &[u8]) -> Option<usize>
    ensures { MatchOption result (lines_from [] text.now ≡ []) (λ end. (end < length text.now) × (lines_from [] text.now ≡ take 257 (take end text.now) ∷ lines_from [] (drop (end + 1) text.now))) }
{
    text.iter().position(|b| *b == b'\r')
}

// Gives a line to the engine, and answers how many bytes of the buffer are the reply.
fn hear_line<M: Make>(
    memory: &mut Memory<'_, M>,
    session: &mut Session,
    line: &[u8],
    buffer: &mut [u8],
) -> usize
    requires room { 600 ≤ length buffer.old }
    ensures within { result ≤ length buffer.old }
    ensures said { take result buffer.new ≡ (step M.Make.spec (ledger_of M.Make session.old memory.old.pool) line.now).said }
    ensures ledger { (ledger_of M.Make session.new memory.new.pool) ≡ (step M.Make.spec (ledger_of M.Make session.old memory.old.pool) line.now).next }
{
    command(memory, session, line, buffer).unwrap()
}

// Gives a line to the engine, and adds the reply to `out`.
fn answer_line<M: Make>(
    memory: &mut Memory<'_, M>,
    session: &mut Session,
    line: &[u8],
    out: &mut Vec<u8>,
) -> Result<(), AllocError>
    ensures replies { OnOk result (out.new.items ≡ out.old.items ++ (step M.Make.spec (ledger_of M.Make session.old memory.old.pool) line.now).said) }
    ensures ledger { (ledger_of M.Make session.new memory.new.pool) ≡ (step M.Make.spec (ledger_of M.Make session.old memory.old.pool) line.now).next }
{
    let mut buffer = [0u8; LEAST_BUFFER];
    let n = hear_line(memory, session, line, &mut buffer);
    out.extend_from_slice(&buffer[..n])
}

// Copies as much of a line as the program's line buffer holds, and answers how much that is.
fn copy_line(buffer: &mut [u8], line: &[u8]) -> usize
    requires room { length buffer.old ≡ 257 }
    ensures within { result ≤ length buffer.old }
    ensures copied { take result buffer.new ≡ take 257 line.now }
{
    let len = line.len().min(LINE_BUFFER);
    buffer[..len].copy_from_slice(&line[..len]);
    len
}

// Copies a line to a buffer of zeros, and gives it to the engine; what it has beyond that is dropped.
fn answer_cut<M: Make>(
    memory: &mut Memory<'_, M>,
    session: &mut Session,
    line: &[u8],
    out: &mut Vec<u8>,
) -> Result<(), AllocError>
    ensures replies { OnOk result (out.new.items ≡ out.old.items ++ (step M.Make.spec (ledger_of M.Make session.old memory.old.pool) (take 257 line.now)).said) }
    ensures ledger { (ledger_of M.Make session.new memory.new.pool) ≡ (step M.Make.spec (ledger_of M.Make session.old memory.old.pool) (take 257 line.now)).next }
{
    let mut buffer = [0u8; LINE_BUFFER];
    let len = copy_line(&mut buffer, line);
    answer_line(memory, session, &buffer[..len], out)
}

// Gives each line of a text to the engine. What stands behind the last CR is no line, as a `split` at the CRs would have it.
pub(crate) fn answer_lines<M: Make>(
    memory: &mut Memory<'_, M>,
    session: &mut Session,
    text: &[u8],
    out: &mut Vec<u8>,
) -> Result<(), AllocError>
    ensures replies { OnOk result (out.new.items ≡ out.old.items ++ replies M.Make.spec (ledger_of M.Make session.old memory.old.pool) (lines_of text.now)) }
    ensures ledger { OnOk result ((ledger_of M.Make session.new memory.new.pool) ≡ behind M.Make.spec (ledger_of M.Make session.old memory.old.pool) (lines_of text.now)) }
{
    let mut rest = text;
    while let Some(end) = line_end(rest) {
        answer_cut(memory, session, &rest[..end], out)?;
        rest = &rest[end + 1..];
    }
    Ok(())
}
