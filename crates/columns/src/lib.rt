// The Betti page's numbers from a state's words: how many generators of a degree each column has, the rows in use; whether the elements are homogeneous.
// The keys of bidegrees, by which generators are counted and elements tested, and the values of the Hilbert function, too.
// Exists for: `counting::row_counts`, `counting::totals`, `counting::rows_in_use`; `mixed::first_mixed`; `weights::key_weights`, `weights::raise`;
// `values::hilbert_value`.
// Knows: crate definitions' Betti, Bidegrees and Hilbert.
// It prints nothing.
#![tactic(auto)]

pub mod counting;
pub mod mixed;
pub mod values;
pub mod weights;
