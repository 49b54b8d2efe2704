// The reducer of a term by the lowest index, `search::reducer_of`, and the tables that a call makes once from a level's words, `tables::fill_heads`,
// `tables::fill_spans`, `tables::fill_images`: the search and the orders read them.
// Knows: crate definitions' Reducer, crate orders' Levels.
#![tactic(auto)]

pub mod search;
pub mod tables;
