#![tactic(auto)]

// Document 01 as short executable definitions, one notion per file under specs/, and closed cases and laws of them under proofs/.
// Exists for: `Instances.starred` and the closed cases; every other crate.
// Knows: nothing else of this repository.
// Every contract of the code is an equation with these; what they mean is crate demands.
