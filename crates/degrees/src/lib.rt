#![tactic(auto)]

// Request A5: degrees of components. What vectors carry, which states are refused for it, and that D changes no vector.
// Exists for: `Degrees.carries`, `Same.same_with_D`.
// Knows: crates definitions, files, theory, ending and demands.
// It says nothing of programs that print by degree.
