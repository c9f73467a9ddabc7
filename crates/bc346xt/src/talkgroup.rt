// The settings of a talkgroup.
use common::{HasName, Settings};
use sorts::{
    FieldRow, Sort, StartingName, Tag, put_flag, put_tag, read_between, read_flag, read_offset,
    read_small, read_tag,
};
use text::writer::Writer;

const FIELD_COUNT: usize = 11;

// The links in a reply stand behind these fields.
const FIRST_PART: usize = 5;

const HIGHEST_ID: u32 = 65535;

const HIGHEST_ALERT: u8 = 9;

const HIGHEST_ALERT_LEVEL: u8 = 15;

const HIGHEST_PATTERN: u8 = 3;

#[derive(Clone, Copy)]
pub struct TalkgroupSettings {
    pub id: u16,
    pub lockout: bool,
    pub priority: bool,
    pub alert: u8,
    pub alert_level: u8,
    pub tag: Tag,
    pub pattern: u8,
    pub offset: i8,
}

impl Settings for TalkgroupSettings {
    ghost use Rattle.bc346xt.specs.Talkgroup.{talkgroup_scheme};
    ghost use Rattle.bc346xt.specs.Keeps.{talkgroup_keeps};

    ghost scheme = { talkgroup_scheme };

    ghost keeps = { talkgroup_keeps };

    fn new() -> TalkgroupSettings {
        TalkgroupSettings {
            id: 0,
            lockout: false,
            priority: false,
            alert: 0,
            alert_level: 0,
            tag: None,
            pattern: 0,
            offset: 0,
        }
    }

    fn field_count() -> usize {
        FIELD_COUNT
    }

    fn first_part() -> usize {
        FIRST_PART
    }

    fn row(field: usize) -> FieldRow {
        match field {
            0 => FieldRow::new(
                b"TGID",
                Sort::Number {
                    low: 0,
                    high: HIGHEST_ID,
                },
            ),
            1 => FieldRow::flag(b"LOUT"),
            2 => FieldRow::flag(b"PRI"),
            3 => FieldRow::small(b"ALT", 0, HIGHEST_ALERT),
            4 => FieldRow::small(b"ALTL", 0, HIGHEST_ALERT_LEVEL),
            5 => FieldRow::reserve(),
            6 => FieldRow::reserve(),
            7 => FieldRow::new(b"NUMBER_TAG", Sort::Tag),
            8 => FieldRow::reserve(),
            9 => FieldRow::small(b"ALT_PATTERN", 0, HIGHEST_PATTERN),
            10 => FieldRow::new(b"VOL_OFFSET", Sort::Offset),
            _ => FieldRow::reserve(),
        }
    }

    fn write(&mut self, field: usize, text: &[u8]) {
        match field {
            0 => if let Some(id) = read_between(text, 0, HIGHEST_ID) {
                self.id = id as u16;
            },
            1 => self.lockout = read_flag(text).unwrap_or(self.lockout),
            2 => self.priority = read_flag(text).unwrap_or(self.priority),
            3 => self.alert = read_small(text, 0, HIGHEST_ALERT).unwrap_or(self.alert),
            4 => self.alert_level = read_small(text, 0, HIGHEST_ALERT_LEVEL).unwrap_or(
                self.alert_level,
            ),
            7 => self.tag = read_tag(text).unwrap_or(self.tag),
            9 => self.pattern = read_small(text, 0, HIGHEST_PATTERN).unwrap_or(self.pattern),
            10 => self.offset = read_offset(text).unwrap_or(self.offset),
            _ => {}
        }
    }

    fn show(&self, field: usize, w: &mut Writer<'_>) {
        match field {
            0 => w.put_number(self.id as u32),
            1 => put_flag(w, self.lockout),
            2 => put_flag(w, self.priority),
            3 => w.put_number(self.alert as u32),
            4 => w.put_number(self.alert_level as u32),
            7 => put_tag(w, self.tag),
            9 => w.put_number(self.pattern as u32),
            10 => w.put_signed(self.offset as i32),
            _ => {}
        }
    }
}

impl HasName for TalkgroupSettings {
    ghost use Rattle.std.specs.Prelude.{refl};
    ghost use Rattle.sorts.specs.declared.sort.StartingName.TheVariants.{Talkgroup};

    ghost start = { Talkgroup };

    ghost few = { refl };

    ghost fronted = { refl };

    fn starting_name() -> StartingName {
        StartingName::Talkgroup
    }
}
