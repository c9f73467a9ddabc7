// The fields of a record in a reply.
ghost use Rattle.std.specs.Prelude.{◌≡◌, ℕ, ◌+◌, ◌-◌, ◌*◌, ◌≤◌, [], ◌∷◌, length, slice_index_or, slice_range};
ghost use Rattle.reply.specs.Lists.{Lists};

use make::Make;
use text::writer::Writer;

// A comma and the text that a field shows.
pub fn put_field<M: Make>(w: &mut Writer<'_>, record: &M::Record, field: usize)
    requires room { w.old.at + 25 ≤ length w.old.out.now }
    ensures bound { w.new.at ≤ w.old.at + 25 }
    ensures texts { Lists w.old w.new (slice_index_or (M.Make.texts «record».now) field [] ∷ []) }
{
    w.put_byte(b',');
    M::show(record, field, w);
}

// The fields from number `from` up to `to`, each a comma and its text.
pub fn put_fields<M: Make>(w: &mut Writer<'_>, record: &M::Record, from: usize, to: usize)
    requires order { from ≤ to }
    requires within { to ≤ length (M.Make.texts «record».now) }
    requires few { to ≤ 20 }
    requires room { w.old.at + 25 * (to - from) ≤ length w.old.out.now }
    ensures bound { w.new.at ≤ w.old.at + 25 * (to - from) }
    ensures texts { Lists w.old w.new (slice_range (M.Make.texts «record».now) from to) }
{
    for field in from..to {
        put_field::<M>(w, record, field);
    }
}
