// A set line tested apart from its write: a test makes a tested line of an untested one, and a write takes the tested line.
#![tactic(auto)]

mod calls;
mod judging;
mod laws;
mod lines;
mod writing;

pub use calls::{test, write};
pub use laws::written_at_once;
pub use lines::{TestError, TestedLine, UntestedLine};
