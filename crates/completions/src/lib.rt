// Request A6: completing a basis. What the completed file is, which module it generates, when the work is refused, that it ends; and which frame terms need
// no second division.
// Exists for: `Completions.completing_right`, `Resuming.resumes`.
// Knows: crates definitions, files, theory, ending and demands.
// It says nothing of code.
