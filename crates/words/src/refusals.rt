// Why a file, a level or a call is refused, and at which place.
// Knows: the numbers of docs/SPECIFICATION.md, by which callers outside and the printed lines know a refusal.
ghost use Rattle.std.specs.Prelude.{◌≡◌};
ghost use Rattle.words.specs.refusals.Numbers.{number_of};

#[derive(Clone, Copy, Debug, PartialEq, Eq)]
pub enum Refusal {
    // A line without its shape, a file without its end.
    Shape,
    Modulus,
    Parameters,
    Term,
    Element,
    Order,
    Count,
    // More T lines than may be.
    Lines,
    // Division stops at a term without a reducer.
    NoReducer,
    State,
    // A level, a vector or a pick code that there is not.
    Index,
    Exponent,
    // More terms in a value, a vector or a work area than may be.
    Terms,
    // More frame terms or rows in a level than may be.
    Level,
    Buffer,
    Degree,
    DegreeRange,
    Elements,
    LevelNine,
    LogLine,
    Pick,
    VectorLine,
    WeightRange,
    Bidegree,
}

// A refusal and the place that is told beside it.
#[derive(Clone, Copy, Debug, PartialEq, Eq)]
pub struct Refused {
    pub refusal: Refusal,
    pub place: usize,
}

impl Refusal {
    pub fn number(self) -> u16
        ensures { result ≡ number_of self }
    {
        match self {
            Refusal::Shape => 1,
            Refusal::Modulus => 2,
            Refusal::Parameters => 3,
            Refusal::Term => 4,
            Refusal::Element => 5,
            Refusal::Order => 6,
            Refusal::Count => 7,
            Refusal::Lines => 8,
            Refusal::NoReducer => 9,
            Refusal::State => 11,
            Refusal::Index => 12,
            Refusal::Exponent => 13,
            Refusal::Terms => 14,
            Refusal::Level => 15,
            Refusal::Buffer => 16,
            Refusal::Degree => 17,
            Refusal::DegreeRange => 18,
            Refusal::Elements => 19,
            Refusal::LevelNine => 20,
            Refusal::LogLine => 21,
            Refusal::Pick => 22,
            Refusal::VectorLine => 23,
            Refusal::WeightRange => 24,
            Refusal::Bidegree => 25,
        }
    }
}
