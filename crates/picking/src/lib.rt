#![tactic(auto)]

// Picking the greatest term with its image beside it: the search as a definition under specs/, and that it finds the greatest of the working value
// under proofs/.
// Exists for: `Running.a3`.
// Knows: crates definitions and comparing.
// It knows nothing of the code: runs::reduction puts the two together.
