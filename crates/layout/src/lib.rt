// The layout of a file: reading the numbers of its records, and walking its chains.

#![tactic(auto)]

pub mod chain;
pub mod field;
pub mod kind;
