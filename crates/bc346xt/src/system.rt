// The settings of a system, beside its type.
use common::{HasName, Settings};
use sorts::{
    FieldRow, QuickKey, Sort, StartingName, Tag, put_flag, put_quick_key, put_tag, read_delay,
    read_flag, read_quick_key, read_small, read_tag,
};
use text::writer::Writer;

const FIELD_COUNT: usize = 5;

// The links in a reply stand behind these fields.
const FIRST_PART: usize = 4;

const HIGHEST_KEY: u8 = 99;

const LONGEST_HOLD: u8 = 255;

#[derive(Clone, Copy)]
pub struct SystemSettings {
    pub key: QuickKey,
    pub hold: u8,
    pub lockout: bool,
    pub delay: i8,
    pub tag: Tag,
}

impl Settings for SystemSettings {
    ghost use Rattle.bc346xt.specs.System.{system_scheme};
    ghost use Rattle.bc346xt.specs.Keeps.{system_keeps};

    ghost scheme = { system_scheme };

    ghost keeps = { system_keeps };

    fn new() -> SystemSettings {
        SystemSettings {
            key: None,
            hold: 0,
            lockout: false,
            delay: 0,
            tag: None,
        }
    }

    fn field_count() -> usize {
        FIELD_COUNT
    }

    fn first_part() -> usize {
        FIRST_PART
    }

    fn row(field: usize) -> FieldRow {
        match field {
            0 => FieldRow::new(b"QUICK_KEY", Sort::QuickKey { high: HIGHEST_KEY }),
            1 => FieldRow::small(b"HLD", 0, LONGEST_HOLD),
            2 => FieldRow::flag(b"LOUT"),
            3 => FieldRow::new(b"DLY", Sort::Delay),
            4 => FieldRow::new(b"NUMBER_TAG", Sort::Tag),
            _ => FieldRow::reserve(),
        }
    }

    fn write(&mut self, field: usize, text: &[u8]) {
        match field {
            0 => self.key = read_quick_key(text, HIGHEST_KEY).unwrap_or(self.key),
            1 => self.hold = read_small(text, 0, LONGEST_HOLD).unwrap_or(self.hold),
            2 => self.lockout = read_flag(text).unwrap_or(self.lockout),
            3 => self.delay = read_delay(text).unwrap_or(self.delay),
            4 => self.tag = read_tag(text).unwrap_or(self.tag),
            _ => {}
        }
    }

    fn show(&self, field: usize, w: &mut Writer<'_>) {
        match field {
            0 => put_quick_key(w, self.key),
            1 => w.put_number(self.hold as u32),
            2 => put_flag(w, self.lockout),
            3 => w.put_signed(self.delay as i32),
            4 => put_tag(w, self.tag),
            _ => {}
        }
    }
}

impl HasName for SystemSettings {
    ghost use Rattle.std.specs.Prelude.{refl};
    ghost use Rattle.sorts.specs.declared.sort.StartingName.TheVariants.{System};

    ghost start = { System };

    ghost few = { refl };

    ghost fronted = { refl };

    fn starting_name() -> StartingName {
        StartingName::System
    }
}
