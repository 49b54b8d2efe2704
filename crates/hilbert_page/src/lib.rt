// The Hilbert function of a file printed into a buffer, `whole::print`; its lines of a state's words, `page::print_lines`.
// Knows: crate definitions' Hilbert.
// Its values are crate columns'.
#![tactic(auto)]

pub mod page;
pub mod whole;
