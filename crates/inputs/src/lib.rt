// Inputs with lines after E have no bound, and the first bytes of a longer one say all: where its file ends, lines tested in turn, the program as a whole.
// Exists for: `Turns.turns_cut`, `Enough.enough`.
// Knows: crates definitions, laws, files and demands.
// A request that allows lines after E says how many bytes of these suffice.
