// The whole job, from the bytes of the lines to the bytes of the replies and the sheet.
ghost use Rattle.std.specs.Prelude.{◌≡◌, min, length, IfOk};
ghost use Rattle.report.specs.Report.{job};

use crate::lines::answer_lines;
use crate::parts::add_sheet;
use chain::Link;
use engine::Session;
use ledger::mode::Mode;
use make::Make;
use memory::Memory;
use std::alloc::{AllocError, Global};

// Opens a memory over the lent tables, gives it the lines of a text, and writes each reply and then the sheet.
pub fn report<M: Make>(
    heap: Global,
    links: &mut [Link],
    records: &mut [M::Record],
    text: &[u8],
) -> Result<Vec<u8>, AllocError>
    ensures { IfOk result (λ v. v.items ≡ job M.Make.spec (min (min (length links.old) (length records.old)) M.Make.spec.most) text.now) }
{
    let mut memory: Memory<M> = Memory::open(links, records);
    let mut session = Session { mode: Mode::Off };
    let mut out = Vec::new(heap);
    answer_lines(&mut memory, &mut session, text, &mut out)?;
    add_sheet(&memory, &mut out)?;
    Ok(out)
}
