#![tactic(auto)]

// Request A10: lists of syzygies end after n + 1 levels, and after n where the elements stand ascending.
// Exists for: `Lengths.levels_end`, `Frames.frames_end`.
// Knows: crates definitions, theory, ending and demands.
// It asks that frame terms with the same component are numbered by ascending lexicographic monomial.
