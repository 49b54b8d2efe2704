// The vector of a frame term by a log of picks, printed into a buffer, `whole::print`; the levels below it, `levels::lift_below`.
// Knows: crate definitions' Replay.
// The log is crate replaying's.
#![tactic(auto)]

pub mod levels;
pub mod whole;
