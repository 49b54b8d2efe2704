// The four numbers of a problem, as the R line and the state's first words have them.
// Knows: crate definitions' Problem, the ranges of n, the order code and s; p is tested by crate field.
ghost use Rattle.std.specs.Prelude.{◌≡◌};
ghost use Rattle.definitions.specs.Limits.{document_01};
ghost use Rattle.definitions.specs.Problem.{in_ranges?};
ghost use Rattle.words.specs.parameters.Values.{parameters_of};

// p, n, the order code, s.
#[derive(Clone, Copy)]
pub struct Parameters {
    pub p: u16,
    pub n: u16,
    pub code: u16,
    pub s: u16,
}

// Whether n, the order code and s are in their ranges.
pub fn in_ranges(q: Parameters) -> bool
    ensures { result ≡ in_ranges? document_01 (parameters_of q) }
{
    crate::between(1, q.n, crate::MOST_VARIABLES)
        && crate::between(1, q.code, 3)
        && crate::between(1, q.s, crate::MOST_COMPONENTS)
}
