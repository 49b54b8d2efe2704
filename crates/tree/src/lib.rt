// Lifting by the tree: the lifting of a term and of a list, `subtrees::lift_term` and `subtrees::lift_list`; all frame terms of a level,
// `frame_terms::lift_all`.
// Knows: crate definitions' Tree and Lifting.
// The cache's rows are a crate of their own.
#![tactic(auto)]

pub mod frame_terms;
pub mod subtrees;
