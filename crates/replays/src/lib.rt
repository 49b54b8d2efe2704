// Request A9: picks recorded in another session: when a log is taken, the vector that it gives, whose logs these can be, 12, 21 and 22.
// Exists for: `Replays.replays_right`.
// Knows: the definitions, crate ending's values, and crate demands' runs with any picks.
