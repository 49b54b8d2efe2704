// Request A12: a vector divided by the elements of a file: quotients and remainder, members of the module, which V lines are read, 23, inputs of any length.
// Exists for: `Membership.membership_right`, `Enough.enough`.
// Knows: crates definitions, laws, theory, ending, files and demands.
// The value of a division goes as in a run that drops a leading term without a reducer.
