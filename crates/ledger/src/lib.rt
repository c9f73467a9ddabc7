// The ledger: what every line answers and changes, as definitions. The code here is the words that they share with the engine.
#![tactic(auto)]

pub mod answer;
pub mod command;
pub mod mode;
pub mod refusal;
