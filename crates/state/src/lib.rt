// The state as words: the soundness test behind 11, `soundness::sound`; what a lifting reads of a sound state, `preparing::fill_tables`; a level
// written, `writing::append` and `writing::finish`, its degrees by `degrees::carry`; a vector read out, `writing::fetch_rows`.
// Knows: crate definitions' Layout, State, Degrees and Stage.
#![tactic(auto)]

pub mod degrees;
pub mod preparing;
pub mod soundness;
pub mod writing;
