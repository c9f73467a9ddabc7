// Makes of record: the kinds, what a make fixes, and the trait that every make keeps.
#![tactic(auto)]

mod find;
mod kind;
mod rules;

pub use find::type_named;
pub use kind::Kind;
pub use rules::Make;
