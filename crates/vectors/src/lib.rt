// Terms and their sums as rows of a lent slice: a term read and put, `terms::row`, `terms::put`; a term into a sum in the order of arrival,
// `sums::store`, or into a descending one, `sums::insert`.
// Knows: crate definitions' Vectors and the rows of its Layout.
#![tactic(auto)]

pub mod sums;
pub mod terms;
