// The engine: takes the receiver's command lines, keeps the memory, and gives the receiver's replies.
#![tactic(auto)]

mod calls;
mod creating;
mod deleting;
mod hearing;
mod records;
mod running;
mod saying;
mod session;
mod setting;
mod target;
mod telling;

pub use calls::command;
pub use session::Session;

// What testing and writing a line apart builds on, and `set`, which tells its answer in full. Only `set_fields`, `set` and `say` require something of their callers.
pub use calls::LEAST_BUFFER;
pub use line::parts::LONGEST_LINE;
pub use saying::say;
pub use setting::{set, set_fields};
pub use target::find_target;
