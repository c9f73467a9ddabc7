// The settings of a trunk frequency, which has no name.
use crate::settings::Settings;
use sorts::{FieldRow, Sort, put_flag, read_flag, read_frequency, read_small};
use text::frequency::Frequency;
use text::writer::Writer;

const LOWEST_NUMBER: u8 = 1;

const HIGHEST_NUMBER: u8 = 30;

#[derive(Clone, Copy)]
pub struct TrunkSettings {
    pub frequency: u32,
    pub number: u8,
    pub lockout: bool,
}

impl Settings for TrunkSettings {
    ghost use Rattle.common.specs.Trunk.{trunk_scheme};
    ghost use Rattle.common.specs.Keeps.{trunk_keeps};

    ghost scheme = { trunk_scheme };

    ghost keeps = { trunk_keeps };

    fn new() -> TrunkSettings {
        TrunkSettings {
            frequency: 0,
            number: 1,
            lockout: false,
        }
    }

    fn field_count() -> usize {
        3
    }

    fn first_part() -> usize {
        3
    }

    fn row(field: usize) -> FieldRow {
        match field {
            0 => FieldRow::new(b"FRQ", Sort::Frequency),
            1 => FieldRow::small(b"LCN", LOWEST_NUMBER, HIGHEST_NUMBER),
            2 => FieldRow::flag(b"LOUT"),
            _ => FieldRow::reserve(),
        }
    }

    fn write(&mut self, field: usize, text: &[u8]) {
        match field {
            0 => self.frequency = read_frequency(text).unwrap_or(self.frequency),
            1 => self.number = read_small(text, LOWEST_NUMBER, HIGHEST_NUMBER).unwrap_or(
                self.number,
            ),
            2 => self.lockout = read_flag(text).unwrap_or(self.lockout),
            _ => {}
        }
    }

    fn show(&self, field: usize, w: &mut Writer<'_>) {
        match field {
            0 => Frequency::from_row(self.frequency).put(w),
            1 => w.put_number(self.number as u32),
            2 => put_flag(w, self.lockout),
            _ => {}
        }
    }
}
