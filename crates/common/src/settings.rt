// What the settings of each kind of record do.
ghost use Rattle.std.specs.Prelude.{◌≡◌, ◌+◌, ◌≤◌, [], length, slice_index_or};
ghost use Rattle.text.specs.Writing.{Puts};
ghost use Rattle.sorts.specs.Plans.{fields_from};
ghost use Rattle.common.specs.Scheme.{Scheme, SchemeKeeps, row_in};

use sorts::FieldRow;
use text::writer::Writer;

// The settings of one kind of record: its fields, each with a text.
// Each type lists its fields in `row`, `write` and `show`: a table of them would hold function pointers.
pub trait Settings: Copy {
    // What the settings hold, show and become.
    ghost scheme: { Scheme Self };

    // The settings of a new record.
    fn new() -> Self
        ensures value { result ≡ scheme.blank };

    fn field_count() -> usize
        ensures value { result ≡ length (fields_from scheme.rows) };

    // How many fields stand before the links in a reply.
    fn first_part() -> usize
        ensures value { result ≡ scheme.first };

    // The row of a field.
    fn row(field: usize) -> FieldRow
        ensures name { result.name.now ≡ (row_in scheme.rows field).name }
        ensures sort { result.sort ≡ (row_in scheme.rows field).sort };

    // Writes a text into a field, if it is legal there.
    fn write(&mut self, field: usize, text: &[u8])
        ensures after { self.new ≡ scheme.written self.old field text.now };

    // Writes the text that a field shows.
    fn show(&self, field: usize, w: &mut Writer<'_>)
        requires room { w.old.at + 24 ≤ length w.old.out.now }
        ensures puts { Puts w.old w.new (slice_index_or (scheme.texts self.now) field []) }
        ensures bound { w.new.at ≤ w.old.at + 24 };

    // The settings keep the rules for settings.
    ghost keeps: { SchemeKeeps scheme };
}
