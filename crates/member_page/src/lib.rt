// Whether a vector is in the module of a file's elements: the lines printed into a buffer, `whole::print`; the vector read from V lines,
// `brought::v_lines`; the lines of a division, `page::print_lines`.
// Knows: crate definitions' Membership.
// The division is crate dividing's.
#![tactic(auto)]

pub mod brought;
pub mod page;
pub mod whole;
