#![tactic(auto)]

// Document 01's orders as relations, stated under specs/; that the definitions' comparison answers exactly by them, proved under proofs/.
// Exists for: `Comparing.a2`.
// Knows: crate definitions.
// It knows nothing of the code: crate orders puts the two together.
