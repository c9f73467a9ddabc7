// The settings of a group of channels or of talkgroups.
use crate::named::HasName;
use crate::settings::Settings;
use sorts::{
    FieldRow, QuickKey, Sort, StartingName, put_flag, put_quick_key, read_flag, read_quick_key,
};
use text::writer::Writer;

const HIGHEST_KEY: u8 = 9;

#[derive(Clone, Copy)]
pub struct GroupSettings {
    pub key: QuickKey,
    pub lockout: bool,
}

impl Settings for GroupSettings {
    ghost use Rattle.common.specs.Group.{group_scheme};
    ghost use Rattle.common.specs.Keeps.{group_keeps};

    ghost scheme = { group_scheme };

    ghost keeps = { group_keeps };

    fn new() -> GroupSettings {
        GroupSettings {
            key: None,
            lockout: false,
        }
    }

    fn field_count() -> usize {
        2
    }

    fn first_part() -> usize {
        2
    }

    fn row(field: usize) -> FieldRow {
        match field {
            0 => FieldRow::new(b"QUICK_KEY", Sort::QuickKey { high: HIGHEST_KEY }),
            1 => FieldRow::flag(b"LOUT"),
            _ => FieldRow::reserve(),
        }
    }

    fn write(&mut self, field: usize, text: &[u8]) {
        match field {
            0 => self.key = read_quick_key(text, HIGHEST_KEY).unwrap_or(self.key),
            1 => self.lockout = read_flag(text).unwrap_or(self.lockout),
            _ => {}
        }
    }

    fn show(&self, field: usize, w: &mut Writer<'_>) {
        match field {
            0 => put_quick_key(w, self.key),
            1 => put_flag(w, self.lockout),
            _ => {}
        }
    }
}

impl HasName for GroupSettings {
    ghost use Rattle.std.specs.Prelude.{refl};
    ghost use Rattle.sorts.specs.declared.sort.StartingName.TheVariants.{Group};

    ghost start = { Group };

    ghost few = { refl };

    ghost fronted = { refl };

    fn starting_name() -> StartingName {
        StartingName::Group
    }
}
