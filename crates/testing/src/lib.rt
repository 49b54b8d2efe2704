// What the tests and benches call beside the public calls; crate testing_c exports it as one library to link.
// Knows: the crates whose functions it calls, each module its own.
// No code of the engine calls it.
#![tactic(auto)]

pub mod frames;
pub mod leaves;
pub mod reading;
pub mod soundness;
pub mod within_limits;
