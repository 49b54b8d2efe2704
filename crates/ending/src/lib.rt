#![tactic(auto)]

// Every run ends: the number that falls with each step, for any picks, while lifting and while accepting.
// Exists for: `Falling.step_falls`, `Runs.run_ends`.
// Knows: crate definitions' Run, Lifting and Calls.
// It asks for sound levels and a prime, not for a Gröbner basis.
