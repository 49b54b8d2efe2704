#![tactic(auto)]

// The mathematics over records of laws: Schreyer's theorem, the reckoning, runs with any picks, the tree, acceptance.
// Exists for: `Tower.gröbner_above`, `Runs.run_reckons`.
// Knows: crate definitions' modular arithmetic, and nothing of its limits, buffers or refusals.
// Crate demands carries it over to the definitions.
