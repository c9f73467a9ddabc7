// The make BCD996T.
#![tactic(auto)]

mod channel;
mod keeping;
mod system;
mod talkgroup;
#[cfg(test)]
mod tests;

pub use channel::ChannelSettings;
pub use keeping::{Bcd996t, Bcd996tLayout, Record, keeps_rules};
pub use system::SystemSettings;
pub use talkgroup::TalkgroupSettings;
