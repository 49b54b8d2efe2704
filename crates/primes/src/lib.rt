#![tactic(auto)]

// Request A4: files with p up to an old bound keep their meaning, their listing and the answers of calls under a larger one.
// Exists for: `Kept.kept`, `Test.prime_test`.
// Knows: crates definitions, theory, ending and demands.
// One law about limits that differ in the bound on p alone; no limit has a number in it.
