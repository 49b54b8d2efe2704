// The minimal Betti numbers of a file printed as a page into a buffer, `whole::print` (request A7); the page of a state's words, `page::print_page`.
// Exists for: `whole::print`.
// Knows: crate definitions' Minimal, crate ranks' theorem that marks count ranks.
// Marks are crate constants', counts crate columns', lines crate pages'.
#![tactic(auto)]

pub mod numbers;
pub mod page;
pub mod whole;
