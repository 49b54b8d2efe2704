// Closed theorems: the definitions and the unrelated implementation agree on some two hundred files and lists of calls.
// Knows: crate definitions alone.
// The cases are written by tools/agreement; the checker computes the definitions' side.
