// The parts of the sheet, one kind after the other.
ghost use Rattle.std.specs.Prelude.{◌≡◌, ◌+◌, ◌<◌, ◌≤◌, true, false, [], ◌∷◌, ◌++◌, length, take, if◌then◌else◌, MatchOption, OnOk};
ghost use Rattle.ledger.specs.Ledger.{living};
ghost use Rattle.memory.specs.View.{store_of};
ghost use Rattle.sheet.specs.Sheet.{names, row, is_row, part, parts_of, sheet};

use chain::Index;
use engine::LEAST_BUFFER;
use make::{Kind, Make};
use memory::Memory;
use sheet::{put_names, put_row};
use std::alloc::AllocError;

// Adds the names of a kind.
fn add_names<M: Make>(kind: Kind, out: &mut Vec<u8>) -> Result<(), AllocError>
    ensures { OnOk result (out.new.items ≡ out.old.items ++ names M.Make.spec kind) }
{
    let mut buffer = [0u8; LEAST_BUFFER];
    let n = put_names::<M>(kind, &mut buffer);
    out.extend_from_slice(&buffer[..n])
}

// Adds the row of record `x`. This and `add_names` are two: one that took the writing as a closure over the buffer would need a longer contract than both.
fn add_row<M: Make>(memory: &Memory<'_, M>, x: Index, out: &mut Vec<u8>) -> Result<(), AllocError>
    requires { living (store_of M.Make memory.now.pool) x.number ≡ true }
    ensures { OnOk result (out.new.items ≡ out.old.items ++ row M.Make.spec (store_of M.Make memory.now.pool) x.number) }
{
    let mut buffer = [0u8; LEAST_BUFFER];
    let n = put_row(memory, x, &mut buffer);
    out.extend_from_slice(&buffer[..n])
}

// The block of that number, if it holds a record of a kind.
fn row_at<M: Make>(memory: &Memory<'_, M>, kind: Kind, number: u32) -> Option<Index>
    requires block { 1 ≤ number }
    ensures { MatchOption result (is_row (store_of M.Make memory.now.pool) kind number ≡ false) (λ x. (x.number ≡ number) × (is_row (store_of M.Make memory.now.pool) kind number ≡ true)) }
{
    let x = Index::new(number)?;
    let record = memory.get(x)?;
    if kind == M::kind(&record) {
        Some(x)
    } else {
        None
    }
}

// Adds the row of record `x`, and before it the names of its kind where they are not `named` yet.
fn add_named_row<M: Make>(
    memory: &Memory<'_, M>,
    kind: Kind,
    x: Index,
    named: bool,
    out: &mut Vec<u8>,
) -> Result<(), AllocError>
    requires { living (store_of M.Make memory.now.pool) x.number ≡ true }
    ensures { OnOk result (out.new.items ≡ (out.old.items ++ (if named then [] else names M.Make.spec kind)) ++ row M.Make.spec (store_of M.Make memory.now.pool) x.number) }
{
    if !named {
        add_names::<M>(kind, out)?;
    }
    add_row(memory, x, out)
}

// Adds the part of a kind: its names before its first row, and its rows by rising index.
fn add_part<M: Make>(
    memory: &Memory<'_, M>,
    kind: Kind,
    out: &mut Vec<u8>,
) -> Result<(), AllocError>
    ensures { OnOk result (out.new.items ≡ out.old.items ++ part M.Make.spec (store_of M.Make memory.now.pool) kind) }
{
    // What the loop has done, and no flag beside a value; an iterator of rows would be asked for its first one too.
    let mut named = false;
    for before in 0..memory.count() {
        if let Some(x) = row_at(memory, kind, before + 1) {
            add_named_row(memory, kind, x, named, out)?;
            named = true;
        }
    }
    Ok(())
}

// Adds the sheet.
pub(crate) fn add_sheet<M: Make>(
    memory: &Memory<'_, M>,
    out: &mut Vec<u8>,
) -> Result<(), AllocError>
    ensures { OnOk result (out.new.items ≡ out.old.items ++ sheet M.Make.spec (store_of M.Make memory.now.pool)) }
{
    for kind in Kind::ALL {
        add_part(memory, kind, out)?;
    }
    Ok(())
}
