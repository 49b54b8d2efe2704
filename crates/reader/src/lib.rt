// The reader of a problem file: `problem::read`, from its bytes to a state's words or a refusal with its place; `problem::weights`.
// `fields` holds one line to its shape, `lines` has its tests, `problem` goes through the file.
// Knows: crate definitions' Problem and the state's words in its Layout.
#![tactic(auto)]

pub mod fields;
pub mod lines;
pub mod problem;
