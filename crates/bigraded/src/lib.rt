// Request A14: two degrees side by side. What its lines count, in which order, what their sums over b are, how long they are, when 24 and 25 come.
// Exists for: `Bidegrees.bidegrees_right`, `Same.same_with_G`, `Short.always_short`, `Weighted.bidegree_recursion`.
// Knows: crates definitions, files, demands, degrees and betti.
// It says nothing of code.
