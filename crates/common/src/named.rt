// Settings behind a name, which is the first field.
ghost use Rattle.std.specs.Prelude.{◌≡◌, true, length, nat_le};
ghost use Rattle.sorts.specs.Plans.{fields_from};
ghost use Rattle.sorts.specs.declared.sort.StartingName.{StartingName};

use crate::name::Name;
use crate::settings::Settings;
use sorts::{FieldRow, Sort, StartingName};
use text::writer::Writer;

// Settings of a kind that has a name.
pub trait HasName: Settings {
    ghost start: { StartingName };

    // The name of a new record.
    fn starting_name() -> StartingName
        ensures value { result ≡ start };

    // There are few fields, and with the name one more.
    ghost few: { nat_le (length (fields_from Self.scheme.rows)) 19 ≡ true };

    ghost fronted: { nat_le Self.scheme.first 19 ≡ true };
}

#[derive(Clone, Copy)]
pub struct Named<S> {
    pub name: Name,
    pub settings: S,
}

impl<S: HasName> Settings for Named<S> {
    ghost use Rattle.common.specs.Named.{named};
    ghost use Rattle.common.specs.NamedLaws.{named_keeps};

    ghost scheme = { named S.start S.scheme };

    ghost keeps = { named_keeps S.start S.scheme S.keeps };

    fn new() -> Named<S> {
        Named {
            name: Name::new(S::starting_name().text()),
            settings: S::new(),
        }
    }

    fn field_count() -> usize {
        S::field_count() + 1
    }

    fn first_part() -> usize {
        S::first_part() + 1
    }

    fn row(field: usize) -> FieldRow {
        match field.checked_sub(1) {
            None => FieldRow::new(b"NAME", Sort::Name(S::starting_name())),
            Some(setting) => S::row(setting),
        }
    }

    fn write(&mut self, field: usize, text: &[u8]) {
        match field.checked_sub(1) {
            None => self.name.write(S::starting_name(), text),
            Some(setting) => self.settings.write(setting, text),
        }
    }

    fn show(&self, field: usize, w: &mut Writer<'_>) {
        match field.checked_sub(1) {
            None => w.put_bytes(self.name.text()),
            Some(setting) => self.settings.show(setting, w),
        }
    }
}
