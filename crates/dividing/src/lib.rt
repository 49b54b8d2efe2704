// A vector divided by the elements of a file, with a remainder: over a state, `over::divide_vector`; all steps on rows, `steps::divide`.
// Knows: crate definitions' Membership.
#![tactic(auto)]

pub mod over;
pub mod steps;
