// The lines of bidegrees of a file printed into a buffer, `whole::print`; those of a state's words, `page::print_lines`.
// Knows: crate definitions' Bidegrees.
// Keys are crate columns', bytes crate pages'.
#![tactic(auto)]

pub mod page;
pub mod whole;
