// The memory: the records of a make in a pool, with all that must hold of it as its invariant.
#![tactic(auto)]

mod changes;
mod memory;
mod opening;
mod reads;

pub use memory::Memory;
