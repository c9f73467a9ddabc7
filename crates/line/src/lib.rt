// Lines: their bytes, their command and their fields, and which records a command is for.
#![tactic(auto)]

pub mod index;
pub mod parts;
pub mod records;
pub mod texts;
