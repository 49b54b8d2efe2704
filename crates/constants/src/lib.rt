// The constants of each level of a state, in one matrix for all degrees, and the generators whose rows elimination marks (request A7).
// Exists for: `marking::mark_columns`.
// Knows: crate ranks' Elimination and Blocks, crate definitions' Minimal.
// What is printed of the marks is its callers'.
#![tactic(auto)]

pub mod elimination;
pub mod filling;
pub mod marking;
