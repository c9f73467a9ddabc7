#![tactic(auto)]

mod chains;
mod changing;
mod entry;
mod laws;
mod lending;
mod link;
mod moving;
mod opening;
mod reading;
mod removing;
mod sizes;
mod tables;
mod walk;
mod walking;

pub use crate::chains::Chains;
pub use crate::laws::{
    blocks_are_covered, creating_appends, deleting_takes_one, members_go_first, owners_are_used,
    tables_are_pinned, walking_visits,
};
pub use crate::link::{Branch, Chain, Index, Link, MEMBER_CHAINS};
pub use crate::walk::Walk;
