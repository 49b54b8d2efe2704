#![tactic(auto)]

// Request A7: ranks modulo p. That the definition's rank is what elimination finds, of a matrix and of the constants of all degrees at once.
// Exists for: `Ranks.ranks_right`.
// Knows: crates definitions, laws and theory.
// It says nothing of code.
