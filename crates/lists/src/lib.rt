#![tactic(auto)]

// Lists given by their values at each place, and the facts by which a loop that fills or marks an array comes to them.
// Exists for: `Filled`, `Marked`.
// Knows: nothing else of this repository.
// No code stands here.
