// The matrix of a level's constants, of all degrees at once: a row for each vector, in it the coefficient of each e_j that has the vector's degree.
// Knows: crate ranks' Blocks, crate definitions' Layout.
// A vector's terms are taken from the last to the first, so that the first of two alike stands.
ghost use Rattle.std.specs.Prelude.{◌≡◌, suc, ◌+◌, ◌-◌, ◌*◌, ◌≤◌, ◌<◌, T, length, get_or, replicate, IfSome, unwrap_or};
ghost use Rattle.std.proofs.Math.Seq.{paste};
ghost use Rattle.definitions.specs.Limits.{document_01};
ghost use Rattle.definitions.specs.Monomial.{unit};
ghost use Rattle.definitions.specs.Layout.{row_at, rows, level_at, holds_state?};
ghost use Rattle.definitions.specs.Places.{row_length, most_vectors, all_levels, state_length, matrix_length};
ghost use Rattle.monomial.specs.Values.{monomial_of};
ghost use Rattle.reducers.specs.tables.Cuts.{Cut, cut_level};
ghost use Rattle.columns.specs.counting.Columns.{column_of};
ghost use Rattle.ranks.specs.Blocks.{row_from, whole};
ghost use Rattle.constants.specs.elimination.Rows.{row_words, rows_at};
ghost use Rattle.constants.specs.filling.Entries.{Enters, Entered};

use monomial::Monomial;
use vectors::terms;

// The column of e_j where it is among the generators and has degree d.
fn generator_column(j: usize, below: &[u16], d: u16) -> Option<usize>
    ensures { IfSome result (λ c. c < length below.now) × Enters below.now d (unit, j) (unwrap_or result (length below.now)) }
{
    if j == 0 || below.len() < j || below[j - 1] != d {
        return None;
    }
    Some(j - 1)
}

// .. of a monomial 1·e_j; none for any other monomial.
fn constant_column(m: Monomial, below: &[u16], d: u16) -> Option<usize>
    ensures { IfSome result (λ c. c < length below.now) × Enters below.now d (monomial_of m) (unwrap_or result (length below.now)) }
{
    if monomial::same_exponents(m.exponents, 0) {
        return generator_column(words::place(m.component), below, d);
    }
    None
}

// Row i's coefficient in its column of the row at word `at`, if it has one there.
fn fill_term(m: &mut [u16], at: usize, level: &[u16], i: usize, below: &[u16], d: u16)
    requires { (i * row_length + row_length ≤ length level.now) × (at + length below.now ≤ length m.old) }
    ensures { Entered m.old at below.now d (row_at level.now i) m.new }
{
    let t = terms::row(level, i);
    if let Some(c) = constant_column(t.monomial, below, d) {
        m[at + c] = t.coefficient;
    }
}

// The row of a vector of degree d, whose terms are the rows from row `from` up to row `to`, at word `at`, where zeros stand.
fn fill_vector(
    m: &mut [u16],
    at: usize,
    level: &[u16],
    from: usize,
    to: usize,
    below: &[u16],
    d: u16,
)
    requires { (from ≤ to) × (to * row_length ≤ length level.now) × (at + length below.now ≤ length m.old)
        × (row_words m.old at (length below.now) ≡ replicate (length below.now) 0) }
    ensures { m.new ≡ paste m.old at (row_from 1 below.now d (rows level.now from (to - from))) (length below.now) }
{
    for i in (from..to).rev() {
        fill_term(m, at, level, i, below, d);
    }
}

// The rows of vectors of these degrees over the generators below.
fn fill(m: &mut [u16], level: &[u16], ends: &[u16], own: &[u16], below: &[u16])
    requires { (m.old ≡ replicate matrix_length 0) × (length own.now ≤ most_vectors) × Cut (length own.now) level.now ends.now
        × (length below.now ≤ most_vectors) }
    ensures { rows_at (length below.now) (length own.now) m.new ≡ whole below.now own.now (cut_level (length own.now) level.now ends.now) }
{
    let mut from: usize = 0;
    for j in 0..own.len() {
        let to = words::place(ends[j]);
        fill_vector(m, j * words::MOST_VECTORS, level, from, to, below, own[j]);
        from = to;
    }
}

// .. of level k of a state, whose vectors and generators below have these degrees.
pub fn fill_level(m: &mut [u16], state: &[u16], k: usize, own: &[u16], below: &[u16])
    requires { (state_length ≤ length state.now) × T (holds_state? document_01 state.now) × (k < get_or state.now 4 0) × (k < all_levels)
        × (m.old ≡ replicate matrix_length 0) × (own.now ≡ column_of state.now (suc k)) × (length own.now ≤ most_vectors)
        × (length below.now ≤ most_vectors) }
    ensures { rows_at (length below.now) (length own.now) m.new ≡ whole below.now own.now (level_at document_01 state.now k) }
{
    let start = words::ROWS_START + k * words::LEVEL_LENGTH;
    let ends = words::ENDS_START + k * words::COUNTS_LENGTH;
    fill(m, &state[start..], &state[ends..], own, below);
}
