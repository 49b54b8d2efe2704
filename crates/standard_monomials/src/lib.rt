// Request A13: the Hilbert function. That each value is the number of monomials that no leading monomial of the basis divides, and what is printed.
// Exists for: `Hilbert.hilbert_right`, `Triangle.table_right`, `Standard.standard_right`.
// Knows: crates definitions, laws, files, demands, lengths and betti.
// It says nothing of code.
