// A row of the sheet.
ghost use Rattle.std.specs.Prelude.{◌≡◌, ◌+◌, ◌<◌, ◌≤◌, true, [], ◌∷◌, length};
ghost use Rattle.text.specs.Writing.{Puts};
ghost use Rattle.chain.specs.Blocks.{next_in, prev_in};
ghost use Rattle.ledger.specs.Ledger.{living, owner};
ghost use Rattle.ledger.specs.Replies.{shown};
ghost use Rattle.memory.specs.View.{store_of};
ghost use Rattle.reply.specs.Lists.{Lists};
ghost use Rattle.reply.specs.Wrote.{Wrote};
ghost use Rattle.sheet.specs.Sheet.{row, type_cell};

use chain::Index;
use make::{Kind, Make};
use memory::Memory;
use reply::fields::put_fields;
use reply::pieces::{put_index, put_piece};
use text::writer::Writer;

// The owner of `x`, and the records before and behind it.
fn put_places<M: Make>(w: &mut Writer<'_>, memory: &Memory<'_, M>, x: Index)
    requires room { w.old.at + 18 ≤ length w.old.out.now }
    ensures bound { w.new.at ≤ w.old.at + 18 }
    ensures texts { Lists w.old w.new (shown (owner (store_of M.Make memory.now.pool) x.number) ∷ shown (prev_in (store_of M.Make memory.now.pool).blocks x.number) ∷ shown (next_in (store_of M.Make memory.now.pool).blocks x.number) ∷ []) }
{
    put_index(w, memory.owner(x));
    put_index(w, memory.previous(x));
    put_index(w, memory.next(x));
}

// A system's type.
fn put_type<M: Make>(w: &mut Writer<'_>, held: &M::Record)
    requires room { w.old.at + 5 ≤ length w.old.out.now }
    ensures bound { w.new.at ≤ w.old.at + 5 }
    ensures texts { Lists w.old w.new (type_cell M.Make.spec (M.Make.kindof held.now) (M.Make.systemtype held.now)) }
{
    if M::kind(held) == Kind::System {
        put_piece(w, M::type_name(M::system_type(held)));
    }
}

// The cells of record `x`.
fn put_cells<M: Make>(w: &mut Writer<'_>, memory: &Memory<'_, M>, x: Index)
    requires room { w.old.at + 600 ≤ length w.old.out.now }
    requires living { living (store_of M.Make memory.now.pool) x.number ≡ true }
    ensures { Puts w.old w.new (row M.Make.spec (store_of M.Make memory.now.pool) x.number) }
{
    let record = memory.read(x);
    w.put_number(x.number());
    put_places(w, memory, x);
    put_type::<M>(w, &record);
    put_fields::<M>(w, &record, 0, M::field_count(M::kind(&record)));
    w.put_byte(b'\r');
}

// Writes the row of record `x` at the front of a buffer, and answers how many bytes it is.
pub fn put_row<M: Make>(memory: &Memory<'_, M>, x: Index, out: &mut [u8]) -> usize
    requires room { 600 ≤ length out.old }
    requires living { living (store_of M.Make memory.now.pool) x.number ≡ true }
    ensures { Wrote out.old out.new result (row M.Make.spec (store_of M.Make memory.now.pool) x.number) }
{
    let mut w = Writer { out, at: 0 };
    put_cells(&mut w, memory, x);
    w.at
}
