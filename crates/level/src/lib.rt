// A level of a sound state: lifted by runs, `by_runs::lift_level`, or, level 0, accepted, `by_runs::accept_level`; stored, `storing::store_level`.
// All levels of an accepted basis: `all_levels`.
// Knows: crate definitions' Lifting over a state's words, within limits that may be smaller than document 01's.
// By the tree: crate ways.
#![tactic(auto)]

pub mod all_levels;
pub mod by_runs;
pub mod storing;
