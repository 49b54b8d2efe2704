// A level of a sound state by any of the three ways, and stored: `any_way::lift_by`; by the tree alone: `by_tree::lift_level`.
// Knows: crate definitions' Lifting, Tree and Calls over a state's words.
#![tactic(auto)]

pub mod any_way;
pub mod by_tree;
