// 17 and 25: whether some element has terms of two degrees, or of two bidegrees, and the first that does.
// Knows: crate definitions' Betti and Bidegrees.
// A term's key is its monomial's and its component's; by the weights 1 and 0 it is its degree.
ghost use Rattle.std.specs.Prelude.{◌≡◌, ◌-◌, ◌*◌, ◌≤◌, ◌<◌, T, length, get_or, take};
ghost use Rattle.definitions.specs.Limits.{document_01};
ghost use Rattle.definitions.specs.Monomial.{fits?};
ghost use Rattle.definitions.specs.Layout.{rows, degrees_at, level_at, holds_state?};
ghost use Rattle.definitions.specs.Betti.{mixed? as mixed_definition, first_mixed as first_definition, same_degree?};
ghost use Rattle.definitions.specs.Places.{most_weight, most_vectors, row_length, state_length};
ghost use Rattle.reducers.specs.tables.Cuts.{Cut, cut_level};
ghost use Rattle.columns.specs.mixed.Placed.{place_of, same_key?, same_bidegrees?};
ghost use Rattle.columns.specs.weights.Keys.{weights_of, key_degrees, AtMost, most_key_weight, most_keys};

use crate::weights;
use state::soundness;

// Whether the rows from row `from` up to row `to` have two keys, over n keys of components.
fn mixed(
    level: &[u16],
    from: usize,
    to: usize,
    d: &[u64],
    n: usize,
    kw: [u64; words::EXPONENTS_LENGTH],
) -> bool
    requires { (from < to) × (to * row_length ≤ length level.now) × (n ≤ length d.now) × AtMost most_key_weight kw
        × AtMost most_keys (take n d.now) }
    ensures { result ≡ mixed_definition (same_key? kw (take n d.now)) (rows level.now from (to - from)) }
{
    let x = weights::key_at(level, from, d, n, kw);
    for i in from + 1..to {
        if weights::key_at(level, i, d, n, kw) != x {
            return true;
        }
    }
    false
}

// The number of the first of r vectors that has two keys.
fn first_among(
    level: &[u16],
    ends: &[u16],
    r: usize,
    d: &[u64],
    n: usize,
    kw: [u64; words::EXPONENTS_LENGTH],
) -> Option<usize>
    requires { (r ≤ most_vectors) × Cut r level.now ends.now × (n ≤ length d.now) × AtMost most_key_weight kw × AtMost most_keys (take n d.now) }
    ensures { place_of result ≡ first_definition (same_key? kw (take n d.now)) 1 (cut_level r level.now ends.now) }
{
    let mut from: usize = 0;
    for j in 0..r {
        let to = words::place(ends[j]);
        if mixed(level, from, to, d, n, kw) {
            return Some(j + 1);
        }
        from = to;
    }
    None
}

// .. of a state's level 0.
fn first_by_keys(state: &[u16], kw: [u64; words::EXPONENTS_LENGTH]) -> Option<usize>
    requires { (state_length ≤ length state.now) × T (holds_state? document_01 state.now) × AtMost most_key_weight kw }
    ensures { place_of result ≡ first_definition (same_key? kw (key_degrees (degrees_at document_01 state.now))) 1
        (level_at document_01 state.now 0) }
{
    let mut d = [0u64; words::MOST_VECTORS];
    let n = weights::component_keys(&mut d, state);
    let r = soundness::count_of(state, 0);
    first_among(
        &state[words::ROWS_START..],
        &state[words::ENDS_START..],
        r,
        &d,
        n,
        kw,
    )
}

// 17: "the first such element" with terms of two degrees.
pub fn first_mixed(state: &[u16]) -> Option<usize>
    requires { (state_length ≤ length state.now) × T (holds_state? document_01 state.now) }
    ensures { place_of result ≡ first_definition (same_degree? (degrees_at document_01 state.now)) 1 (level_at document_01 state.now 0) }
{
    first_by_keys(state, [words::SECOND_BASE; words::EXPONENTS_LENGTH])
}

// 25: .. of two bidegrees, by the weights a1,b1,..,an,bn.
pub fn first_mixed_by(state: &[u16], ws: [u16; words::WEIGHTS_LENGTH]) -> Option<usize>
    requires { (state_length ≤ length state.now) × T (holds_state? document_01 state.now) × T (fits? most_weight ws) }
    ensures { place_of result ≡ first_definition (same_bidegrees? (weights_of (get_or state.now 1 0) ws)
        (degrees_at document_01 state.now)) 1 (level_at document_01 state.now 0) }
{
    let n = words::place(state[1]);
    first_by_keys(state, weights::key_weights(ws, n))
}
