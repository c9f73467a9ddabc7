// The make BC346XT.
#![tactic(auto)]

mod channel;
mod keeping;
mod system;
mod talkgroup;
#[cfg(test)]
mod tests;

pub use channel::ChannelSettings;
pub use keeping::{Bc346xt, Bc346xtLayout, Record, keeps_rules};
pub use system::SystemSettings;
pub use talkgroup::TalkgroupSettings;
