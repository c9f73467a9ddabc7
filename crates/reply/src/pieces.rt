// The pieces of a reply: each a comma and a text.
// `Proper` stays a clause: a chain may have blocks of more than five digits, so it is no invariant of `Index`.
ghost use Rattle.std.specs.Prelude.{◌≡◌, ℕ, ◌+◌, ◌<◌, ◌≤◌, [], ◌∷◌, ◌++◌, length, decimal};
ghost use Rattle.text.specs.Writing.{Puts};
ghost use Rattle.ledger.specs.Ledger.{number_of};
ghost use Rattle.ledger.specs.Replies.{shown};
ghost use Rattle.reply.specs.Shown.{Proper};
ghost use Rattle.reply.specs.Lists.{Lists};

use chain::Index;
use text::writer::Writer;

// An index, or -1 for no record.
fn put_shown(w: &mut Writer<'_>, index: Option<Index>)
    requires index { Proper index }
    requires room { w.old.at + 5 ≤ length w.old.out.now }
    ensures puts { Puts w.old w.new (shown (number_of index)) }
    ensures bound { w.new.at ≤ w.old.at + 5 }
{
    match index {
        Some(index) => w.put_number(index.number()),
        None => w.put_bytes(b"-1"),
    }
}

// A comma and a text.
pub fn put_piece(w: &mut Writer<'_>, text: &[u8])
    requires room { w.old.at + 1 + length text.now ≤ length w.old.out.now }
    ensures bound { w.new.at ≡ w.old.at + 1 + length text.now }
    ensures texts { Lists w.old w.new (text.now ∷ []) }
{
    w.put_byte(b',');
    w.put_bytes(text);
}

// A comma and an index, or -1 for no record.
pub fn put_index(w: &mut Writer<'_>, index: Option<Index>)
    requires index { Proper index }
    requires room { w.old.at + 6 ≤ length w.old.out.now }
    ensures bound { w.new.at ≤ w.old.at + 6 }
    ensures texts { Lists w.old w.new (shown (number_of index) ∷ []) }
{
    w.put_byte(b',');
    put_shown(w, index);
}

// A comma and a number.
pub fn put_count(w: &mut Writer<'_>, n: u32)
    requires small { n < 100000 }
    requires room { w.old.at + 6 ≤ length w.old.out.now }
    ensures bound { w.new.at ≤ w.old.at + 6 }
    ensures texts { Lists w.old w.new (decimal n ∷ []) }
{
    w.put_byte(b',');
    w.put_number(n);
}
