// The laws over whole runs: what the replies to further lines say, and what the lines and replies of a run tell of its records.
#![tactic(auto)]

pub mod laws;
