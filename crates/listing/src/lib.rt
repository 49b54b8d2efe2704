// The sheet of a file printed into a buffer, `whole::print`; its lines as bytes, `printing::level_lines`; what every program begins with,
// `reading::begin`: a file read and its basis accepted, or the lines of the refusal.
// Knows: crate definitions' Sheet.
#![tactic(auto)]

pub mod printing;
pub mod reading;
pub mod whole;
