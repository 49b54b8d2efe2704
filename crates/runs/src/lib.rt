// Lifting by runs, division or hybrid: a run of one frame term to its end, `run::run`. `reduction` has what a step is made of: the picks, products into
// the working value. `frame_terms` has what all frame terms of a level come to, for crates above.
// Knows: crate definitions' Run and Lifting.
#![tactic(auto)]

pub mod frame_terms;
pub mod reduction;
pub mod run;
