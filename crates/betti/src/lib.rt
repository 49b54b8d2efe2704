// Request A1: the Betti page. What its numbers count, which rows it has, how wide its lines are, how long it is, and when 17 comes.
// Exists for: `Betti.betti_right`, `Lines.page_fits`, `Short.page_short`.
// Knows: crates definitions, files, ending, demands, lengths and degrees.
// It says nothing of code.
