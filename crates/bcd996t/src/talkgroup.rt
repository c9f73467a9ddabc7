// The settings of a talkgroup.
use common::{HasName, Settings};
use sorts::{FieldRow, Sort, StartingName, put_flag, read_between, read_flag, read_small};
use text::writer::Writer;

const FIELD_COUNT: usize = 7;

// The links in a reply stand behind these fields.
const FIRST_PART: usize = 5;

const HIGHEST_ID: u32 = 65535;

const HIGHEST_ALERT: u8 = 9;

const HIGHEST_ALERT_LEVEL: u8 = 15;

const HIGHEST_AUDIO_TYPE: u8 = 2;

#[derive(Clone, Copy)]
pub struct TalkgroupSettings {
    pub id: u16,
    pub lockout: bool,
    pub alert: u8,
    pub alert_level: u8,
    pub recorded: bool,
    pub audio_type: u8,
}

impl Settings for TalkgroupSettings {
    ghost use Rattle.bcd996t.specs.Talkgroup.{talkgroup_scheme};
    ghost use Rattle.bcd996t.specs.Keeps.{talkgroup_keeps};

    ghost scheme = { talkgroup_scheme };

    ghost keeps = { talkgroup_keeps };

    fn new() -> TalkgroupSettings {
        TalkgroupSettings {
            id: 0,
            lockout: false,
            alert: 0,
            alert_level: 0,
            recorded: false,
            audio_type: 0,
        }
    }

    fn field_count() -> usize {
        FIELD_COUNT
    }

    fn first_part() -> usize {
        FIRST_PART
    }

    fn row(field: usize) -> FieldRow {
        match field {
            0 => FieldRow::new(
                b"TGID",
                Sort::Number {
                    low: 0,
                    high: HIGHEST_ID,
                },
            ),
            1 => FieldRow::flag(b"LOUT"),
            2 => FieldRow::reserve(),
            3 => FieldRow::small(b"ALT", 0, HIGHEST_ALERT),
            4 => FieldRow::small(b"ALTL", 0, HIGHEST_ALERT_LEVEL),
            5 => FieldRow::flag(b"RECORD"),
            6 => FieldRow::small(b"AUDIO_TYPE", 0, HIGHEST_AUDIO_TYPE),
            _ => FieldRow::reserve(),
        }
    }

    fn write(&mut self, field: usize, text: &[u8]) {
        match field {
            0 => if let Some(id) = read_between(text, 0, HIGHEST_ID) {
                self.id = id as u16;
            },
            1 => self.lockout = read_flag(text).unwrap_or(self.lockout),
            3 => self.alert = read_small(text, 0, HIGHEST_ALERT).unwrap_or(self.alert),
            4 => self.alert_level = read_small(text, 0, HIGHEST_ALERT_LEVEL).unwrap_or(
                self.alert_level,
            ),
            5 => self.recorded = read_flag(text).unwrap_or(self.recorded),
            6 => self.audio_type = read_small(text, 0, HIGHEST_AUDIO_TYPE).unwrap_or(
                self.audio_type,
            ),
            _ => {}
        }
    }

    fn show(&self, field: usize, w: &mut Writer<'_>) {
        match field {
            0 => w.put_number(self.id as u32),
            1 => put_flag(w, self.lockout),
            3 => w.put_number(self.alert as u32),
            4 => w.put_number(self.alert_level as u32),
            5 => put_flag(w, self.recorded),
            6 => w.put_number(self.audio_type as u32),
            _ => {}
        }
    }
}

impl HasName for TalkgroupSettings {
    ghost use Rattle.std.specs.Prelude.{refl};
    ghost use Rattle.sorts.specs.declared.sort.StartingName.TheVariants.{Talkgroup};

    ghost start = { Talkgroup };

    ghost few = { refl };

    ghost fronted = { refl };

    fn starting_name() -> StartingName {
        StartingName::Talkgroup
    }
}
