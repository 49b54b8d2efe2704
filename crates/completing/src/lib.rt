// The completed file of a problem file, in a buffer: `whole::print`.
// Exists for: `whole::print`; `lines::element_lines`, `lines::end_line`; `adding::add`.
// Knows: crate definitions' Completing.
// After an addition the file is read anew, and frame terms that divided to zero are passed over.
#![tactic(auto)]

pub mod adding;
pub mod lines;
pub mod whole;
