// The settings of a channel. Fields that the other make or another kind has too are listed again, as each table in the documents lists them.
use common::{HasName, Settings};
use sorts::{
    FieldRow, Modulation, Sort, StartingName, put_flag, put_modulation, read_flag, read_frequency,
    read_modulation, read_small,
};
use text::frequency::Frequency;
use text::writer::Writer;

const FIELD_COUNT: usize = 11;

// The links in a reply stand behind these fields.
const FIRST_PART: usize = 9;

const HIGHEST_TONE: u8 = 231;

const HIGHEST_ALERT: u8 = 9;

const HIGHEST_ALERT_LEVEL: u8 = 15;

const HIGHEST_AUDIO_TYPE: u8 = 2;

#[derive(Clone, Copy)]
pub struct ChannelSettings {
    pub frequency: u32,
    pub modulation: Modulation,
    pub tone: u8,
    pub tone_lock: bool,
    pub lockout: bool,
    pub priority: bool,
    pub attenuation: bool,
    pub alert: u8,
    pub alert_level: u8,
    pub recorded: bool,
    pub audio_type: u8,
}

impl Settings for ChannelSettings {
    ghost use Rattle.bcd996t.specs.Channel.{channel_scheme};
    ghost use Rattle.bcd996t.specs.Keeps.{channel_keeps};

    ghost scheme = { channel_scheme };

    ghost keeps = { channel_keeps };

    fn new() -> ChannelSettings {
        ChannelSettings {
            frequency: 0,
            modulation: Modulation::Auto,
            tone: 0,
            tone_lock: false,
            lockout: false,
            priority: false,
            attenuation: false,
            alert: 0,
            alert_level: 0,
            recorded: false,
            audio_type: 0,
        }
    }

    fn field_count() -> usize {
        FIELD_COUNT
    }

    fn first_part() -> usize {
        FIRST_PART
    }

    fn row(field: usize) -> FieldRow {
        match field {
            0 => FieldRow::new(b"FRQ", Sort::Frequency),
            1 => FieldRow::new(b"MOD", Sort::Modulation),
            2 => FieldRow::small(b"CTCSS/DCS", 0, HIGHEST_TONE),
            3 => FieldRow::flag(b"TLOCK"),
            4 => FieldRow::flag(b"LOUT"),
            5 => FieldRow::flag(b"PRI"),
            6 => FieldRow::flag(b"ATT"),
            7 => FieldRow::small(b"ALT", 0, HIGHEST_ALERT),
            8 => FieldRow::small(b"ALTL", 0, HIGHEST_ALERT_LEVEL),
            9 => FieldRow::flag(b"RECORD"),
            10 => FieldRow::small(b"AUDIO_TYPE", 0, HIGHEST_AUDIO_TYPE),
            _ => FieldRow::reserve(),
        }
    }

    fn write(&mut self, field: usize, text: &[u8]) {
        match field {
            0 => self.frequency = read_frequency(text).unwrap_or(self.frequency),
            1 => self.modulation = read_modulation(text).unwrap_or(self.modulation),
            2 => self.tone = read_small(text, 0, HIGHEST_TONE).unwrap_or(self.tone),
            3 => self.tone_lock = read_flag(text).unwrap_or(self.tone_lock),
            4 => self.lockout = read_flag(text).unwrap_or(self.lockout),
            5 => self.priority = read_flag(text).unwrap_or(self.priority),
            6 => self.attenuation = read_flag(text).unwrap_or(self.attenuation),
            7 => self.alert = read_small(text, 0, HIGHEST_ALERT).unwrap_or(self.alert),
            8 => self.alert_level = read_small(text, 0, HIGHEST_ALERT_LEVEL).unwrap_or(
                self.alert_level,
            ),
            9 => self.recorded = read_flag(text).unwrap_or(self.recorded),
            10 => self.audio_type = read_small(text, 0, HIGHEST_AUDIO_TYPE).unwrap_or(
                self.audio_type,
            ),
            _ => {}
        }
    }

    fn show(&self, field: usize, w: &mut Writer<'_>) {
        match field {
            0 => Frequency::from_row(self.frequency).put(w),
            1 => put_modulation(w, self.modulation),
            2 => w.put_number(self.tone as u32),
            3 => put_flag(w, self.tone_lock),
            4 => put_flag(w, self.lockout),
            5 => put_flag(w, self.priority),
            6 => put_flag(w, self.attenuation),
            7 => w.put_number(self.alert as u32),
            8 => w.put_number(self.alert_level as u32),
            9 => put_flag(w, self.recorded),
            10 => w.put_number(self.audio_type as u32),
            _ => {}
        }
    }
}

impl HasName for ChannelSettings {
    ghost use Rattle.std.specs.Prelude.{refl};
    ghost use Rattle.sorts.specs.declared.sort.StartingName.TheVariants.{Channel};

    ghost start = { Channel };

    ghost few = { refl };

    ghost fronted = { refl };

    fn starting_name() -> StartingName {
        StartingName::Channel
    }
}
