// The sheet: a line of names for each kind that has records, and a row for each record.
#![tactic(auto)]

mod names;
mod rows;

pub use names::put_names;
pub use rows::put_row;
