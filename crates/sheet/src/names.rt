// The line of names of a kind.
ghost use Rattle.std.specs.Prelude.{◌≡◌, ◌+◌, ◌*◌, ◌≤◌, [], ◌∷◌, length};
ghost use Rattle.text.specs.Writing.{Puts};
ghost use Rattle.make.specs.Data.{fields_of};
ghost use Rattle.reply.specs.Lists.{Lists};
ghost use Rattle.reply.specs.Wrote.{Wrote};
ghost use Rattle.sheet.specs.Sheet.{names, names_in, type_column};

use make::{Kind, Make};
use reply::pieces::put_piece;
use text::writer::Writer;

// The column of a system's type.
fn put_type_name(w: &mut Writer<'_>, kind: Kind)
    requires room { w.old.at + 5 ≤ length w.old.out.now }
    ensures bound { w.new.at ≤ w.old.at + 5 }
    ensures texts { Lists w.old w.new (type_column kind) }
{
    if kind == Kind::System {
        put_piece(w, b"TYPE");
    }
}

// The names of the fields of a kind.
fn put_field_names<M: Make>(w: &mut Writer<'_>, kind: Kind)
    requires room { w.old.at + 260 ≤ length w.old.out.now }
    ensures bound { w.new.at ≤ w.old.at + 260 }
    ensures texts { Lists w.old w.new (names_in (fields_of M.Make.spec kind)) }
{
    for field in 0..M::field_count(kind) {
        put_piece(w, M::field_name(kind, field));
    }
}

// The names of the columns of a kind: INDEX, OWNER, REV, FWD, for systems TYPE, and the fields.
fn put_columns<M: Make>(w: &mut Writer<'_>, kind: Kind)
    requires room { w.old.at + 600 ≤ length w.old.out.now }
    ensures { Puts w.old w.new (names M.Make.spec kind) }
{
    w.put_bytes(b"INDEX,OWNER,REV,FWD");
    put_type_name(w, kind);
    put_field_names::<M>(w, kind);
    w.put_byte(b'\r');
}

// Writes the line of names of a kind at the front of a buffer, and answers how many bytes it is. Room stays a clause, as for a reply.
pub fn put_names<M: Make>(kind: Kind, out: &mut [u8]) -> usize
    requires room { 600 ≤ length out.old }
    ensures { Wrote out.old out.new result (names M.Make.spec kind) }
{
    let mut w = Writer { out, at: 0 };
    put_columns::<M>(&mut w, kind);
    w.at
}
