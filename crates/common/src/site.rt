// The settings of a site.
use crate::named::HasName;
use crate::settings::Settings;
use sorts::{
    FieldRow, QuickKey, Sort, StartingName, put_flag, put_quick_key, read_flag, read_quick_key,
    read_small,
};
use text::writer::Writer;

const HIGHEST_KEY: u8 = 99;

const LONGEST_HOLD: u8 = 255;

#[derive(Clone, Copy)]
pub struct SiteSettings {
    pub key: QuickKey,
    pub hold: u8,
    pub lockout: bool,
}

impl Settings for SiteSettings {
    ghost use Rattle.common.specs.Site.{site_scheme};
    ghost use Rattle.common.specs.Keeps.{site_keeps};

    ghost scheme = { site_scheme };

    ghost keeps = { site_keeps };

    fn new() -> SiteSettings {
        SiteSettings {
            key: None,
            hold: 0,
            lockout: false,
        }
    }

    fn field_count() -> usize {
        3
    }

    fn first_part() -> usize {
        3
    }

    fn row(field: usize) -> FieldRow {
        match field {
            0 => FieldRow::new(b"QUICK_KEY", Sort::QuickKey { high: HIGHEST_KEY }),
            1 => FieldRow::small(b"HLD", 0, LONGEST_HOLD),
            2 => FieldRow::flag(b"LOUT"),
            _ => FieldRow::reserve(),
        }
    }

    fn write(&mut self, field: usize, text: &[u8]) {
        match field {
            0 => self.key = read_quick_key(text, HIGHEST_KEY).unwrap_or(self.key),
            1 => self.hold = read_small(text, 0, LONGEST_HOLD).unwrap_or(self.hold),
            2 => self.lockout = read_flag(text).unwrap_or(self.lockout),
            _ => {}
        }
    }

    fn show(&self, field: usize, w: &mut Writer<'_>) {
        match field {
            0 => put_quick_key(w, self.key),
            1 => w.put_number(self.hold as u32),
            2 => put_flag(w, self.lockout),
            _ => {}
        }
    }
}

impl HasName for SiteSettings {
    ghost use Rattle.std.specs.Prelude.{refl};
    ghost use Rattle.sorts.specs.declared.sort.StartingName.TheVariants.{Site};

    ghost start = { Site };

    ghost few = { refl };

    ghost fronted = { refl };

    fn starting_name() -> StartingName {
        StartingName::Site
    }
}
