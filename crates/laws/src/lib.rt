#![tactic(auto)]

// Laws of the definitions, for any contents and limits, one notion per file under proofs/.
// Exists for: `Modular`, `Bound`, `RoundTrip`, `Numbers`, `Refusals`, and what every crate above cites of a definition.
// Knows: crate definitions. Apart from it, so that an edit of a definition is tried against the closed cases alone, in half the time.
