// A log of picks replayed: the term that a P line names, `picks::replay_pick`; the P lines one by one, `log::replay_lines`; a vector over a sound state,
// `over::replay_vector`.
// Knows: crate definitions' Replay.
// A step is crate runs'.
#![tactic(auto)]

pub mod log;
pub mod over;
pub mod picks;
