#![tactic(auto)]

mod pool;
mod reading;
mod sequence;
mod sought;
mod storing;
mod walking;

pub use crate::pool::Pool;
pub use crate::sequence::SequenceNumber;
pub use crate::sought::Sought;
pub use chain::{Branch, Chain, Index, Link};

#[cfg(test)]
mod tests;
