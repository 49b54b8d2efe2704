// The Betti page of a file printed into a buffer, `whole::print`; the page of a state's words, `page::print_page`.
// Knows: crate definitions' Betti.
// Its numbers are crate columns', its lines crate pages'.
#![tactic(auto)]

pub mod page;
pub mod whole;
