// Request A7: minimal Betti numbers. That each number printed is the count of A1's page less two ranks, zero or more, and what is printed for each file.
// Exists for: `Minimal.minimal_page_right`, `Marked.sound_marked`.
// Knows: crates definitions, laws, theory, files, demands, lengths, degrees, betti and ranks.
// It says nothing of code.
