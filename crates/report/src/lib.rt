// A whole job: opens a memory, gives it the lines of a text, and writes the replies and then the sheet.
#![tactic(auto)]

mod job;
mod lines;
mod parts;

pub use job::report;
