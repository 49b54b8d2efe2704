// Bidegrees as numbers (A14): a key for each variable's weights, for a monomial, for each generator of a column.
// Knows: crate definitions' Bidegrees and Layout, with document 01's limits.
// A column's keys are found from those of the column before it, so columns are taken from column 0 on.
ghost use Rattle.std.specs.Prelude.{◌≡◌, suc, ◌+◌, ◌*◌, ◌≤◌, ◌<◌, T, length, get_or, take};
ghost use Rattle.definitions.specs.Limits.{document_01};
ghost use Rattle.definitions.specs.Monomial.{fits?};
ghost use Rattle.definitions.specs.Degrees.{component_degree};
ghost use Rattle.definitions.specs.Bidegrees.{weighted, degree_weighted};
ghost use Rattle.definitions.specs.Layout.{row_at, holds_state?};
ghost use Rattle.definitions.specs.Places.{most_exponent, most_weight, most_variables, most_vectors, all_levels, row_length, state_length};
ghost use Rattle.reducers.specs.tables.Cuts.{Cut};
ghost use Rattle.columns.specs.weights.Keys.{
  key,
  key_weights as key_weights_definition,
  AtMost,
  most_key_weight,
  most_key,
  most_keys,
  Weighed,
  Components,
  Keyed,
};

use state::soundness;
use vectors::terms;

// ## A monomial

fn pair_key(a: u16, b: u16) -> u64
    ensures { result ≡ key (a, b) }
{
    u64::from(a) * words::SECOND_BASE + u64::from(b)
}

// The key of variable j's weights, zero past n.
fn weight_key(ws: [u16; words::WEIGHTS_LENGTH], n: usize, j: usize) -> u64
    requires { n ≤ most_variables }
    ensures { result ≡ get_or (key_weights_definition n ws) j 0 }
{
    if n <= j {
        return 0;
    }
    pair_key(ws[2 * j], ws[2 * j + 1])
}

// .. of all variables.
pub fn key_weights(ws: [u16; words::WEIGHTS_LENGTH], n: usize) -> [u64; words::EXPONENTS_LENGTH]
    requires { (n ≤ most_variables) × T (fits? most_weight ws) }
    ensures { (result ≡ key_weights_definition n ws) × AtMost most_key_weight result }
{
    let mut r = [0u64; words::EXPONENTS_LENGTH];
    for j in 0..words::EXPONENTS_LENGTH {
        r[j] = weight_key(ws, n, j);
    }
    r
}

// The weighted sum of eight exponents.
fn key_of(kw: [u64; words::EXPONENTS_LENGTH], e: [u16; words::EXPONENTS_LENGTH]) -> u64
    requires { AtMost most_key_weight kw × AtMost most_exponent e }
    ensures { (result ≡ weighted kw e) × (result ≤ most_key) }
{
    let mut sum: u64 = 0;
    for j in 0..words::EXPONENTS_LENGTH {
        sum += kw[j] * u64::from(e[j]);
    }
    sum
}

// ## A row

// The key of a component among the first n; that of one that is not there is zero.
fn component_key(below: &[u64], n: usize, c: usize) -> u64
    requires { n ≤ length below.now }
    ensures { result ≡ component_degree (take n below.now) c }
{
    if c == 0 || n < c {
        return 0;
    }
    below[c - 1]
}

// The key of row i's monomial, over n keys of components.
pub fn key_at(
    level: &[u16],
    i: usize,
    below: &[u64],
    n: usize,
    kw: [u64; words::EXPONENTS_LENGTH],
) -> u64
    requires { (i * row_length + row_length ≤ length level.now) × (n ≤ length below.now) × AtMost most_key_weight kw
        × AtMost most_keys (take n below.now) }
    ensures { result ≡ degree_weighted kw (take n below.now) (row_at level.now i).1 }
{
    let m = terms::row(level, i).monomial;
    let w = key_of(kw, monomial::widened(m.exponents));
    w + component_key(below, n, words::place(m.component))
}

// ## Columns

// The keys of column 0: the components'. How many there are.
pub fn component_keys(keys: &mut [u64], state: &[u16]) -> usize
    requires { (state_length ≤ length state.now) × T (holds_state? document_01 state.now) × (most_vectors ≤ length keys.old) }
    ensures { Components state.now result keys.new }
{
    let s = words::place(state[3]);
    for j in 0..s {
        keys[j] = u64::from(state[words::DEGREES_START + j]) * words::SECOND_BASE;
    }
    s
}

// The keys of r vectors over n keys of components.
fn fill_keys(
    next: &mut [u64],
    level: &[u16],
    ends: &[u16],
    r: usize,
    below: &[u64],
    n: usize,
    kw: [u64; words::EXPONENTS_LENGTH],
)
    requires { (r ≤ length next.old) × Cut r level.now ends.now × (n ≤ length below.now) × AtMost most_key_weight kw
        × AtMost most_keys (take n below.now) }
    ensures { Weighed kw (take n below.now) level.now ends.now r next.new }
{
    let mut from: usize = 0;
    for j in 0..r {
        next[j] = key_at(level, from, below, n, kw);
        from = words::place(ends[j]);
    }
}

// The keys of column k + 1 in place of the n keys of column k: those of level k's vectors. How many there are.
pub fn raise(
    keys: &mut [u64],
    n: usize,
    state: &[u16],
    k: usize,
    kw: [u64; words::EXPONENTS_LENGTH],
) -> usize
    requires { (state_length ≤ length state.now) × T (holds_state? document_01 state.now) × (k < get_or state.now 4 0) × (k < all_levels)
        × AtMost most_key_weight kw × Keyed kw state.now k n keys.old }
    ensures { Keyed kw state.now (suc k) result keys.new }
{
    let mut next = [0u64; words::MOST_VECTORS];
    let r = soundness::count_of(state, k);
    let start = words::ROWS_START + k * words::LEVEL_LENGTH;
    let ends = words::ENDS_START + k * words::COUNTS_LENGTH;
    fill_keys(&mut next, &state[start..], &state[ends..], r, keys, n, kw);
    keys[..r].copy_from_slice(&next[..r]);
    r
}
