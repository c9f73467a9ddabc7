// The text layer: numbers, signed numbers, frequencies and fields of a line, and writing them into a reply buffer.
#![tactic(auto)]

pub mod field;
pub mod frequency;
pub mod laws;
pub mod number;
pub mod signed;
#[cfg(test)]
mod tests;
pub mod writer;
