// Request A11: lifting in less work space: the same level wherever it finishes, no refusal more with more room, and when 14 and 16 come.
// Exists for: `Space.space_right`.
// Knows: crates definitions, laws and demands.
// One law about runs in two rooms, and what follows for calls and lists of calls; no limit has a number in it.
