// The sorts of field: reading, testing and showing their texts.
#![tactic(auto)]

mod laws;
mod name;
mod range;
mod row;
mod signed;
mod sort;
mod takes;
mod value;
mod word;

pub use laws::{plans_keep, sorts_keep};
pub use name::read_name;
pub use range::{read_between, read_flag, read_frequency, read_small};
pub use row::FieldRow;
pub use signed::{read_delay, read_offset};
pub use sort::{Sort, StartingName};
pub use value::{Modulation, NameText, QuickKey, Tag};
pub use word::{
    put_flag, put_modulation, put_quick_key, put_tag, read_modulation, read_quick_key, read_tag,
};
