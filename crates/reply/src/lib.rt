// Replies, written into the buffer that comes with a line.
#![tactic(auto)]

pub mod brief;
pub mod fields;
pub mod links;
pub mod pieces;
pub mod record;
pub mod told;
