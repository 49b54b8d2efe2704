// The Hilbert function of a state (A13): the alternating sum over its columns.
// Knows: crate definitions' Hilbert, with document 01's limits.
// Each generator of a column counts the monomials of the degree left; crate pascal has their number.
ghost use Rattle.std.specs.Prelude.{◌≡◌, ◌*◌, ◌≤◌, ◌<◌, T, length};
ghost use Rattle.definitions.specs.Limits.{document_01};
ghost use Rattle.definitions.specs.Layout.{holds_state?};
ghost use Rattle.definitions.specs.Hilbert.{
  left_over as left_over_definition,
  column_value as column_value_definition,
  both_sums as both_sums_definition,
  hilbert_value as hilbert_value_definition,
};
ghost use Rattle.definitions.specs.Places.{exponents_length, most_vectors, state_length, hilbert_degrees};
ghost use Rattle.standard_monomials.specs.Table.{most_monomials};
ghost use Rattle.standard_monomials.specs.Hilbert.{sum_bound};
ghost use Rattle.columns.specs.counting.Columns.{columns_of};

use crate::counting;

// What columns 0, 2, .. count, and what columns 1, 3, .. count.
#[derive(Clone, Copy)]
pub struct Sums {
    pub even: u64,
    pub odd: u64,
}

// "the number of monomials of the degree left after the generator's own; a generator of higher degree counts nothing": a generator of degree g.
fn left_over(n: usize, d: usize, g: u16) -> u64
    requires { (1 ≤ n) × (n ≤ exponents_length) × (d < hilbert_degrees) }
    ensures { (result ≡ left_over_definition n d g) × (result ≤ most_monomials) }
{
    let own = words::place(g);
    if d < own {
        return 0;
    }
    pascal::monomials(n, d - own)
}

// What a column counts, by its degrees.
pub fn column_value(ds: &[u16], n: usize, d: usize) -> u64
    requires { (1 ≤ n) × (n ≤ exponents_length) × (d < hilbert_degrees) × (length ds.now ≤ most_vectors) }
    ensures { (result ≡ column_value_definition n d ds.now) × (result ≤ most_vectors * most_monomials) }
{
    let mut sum: u64 = 0;
    for g in ds {
        sum += left_over(n, d, *g);
    }
    sum
}

// The two sums, from the last column on: what was even is odd behind one column more.
fn both_sums(state: &[u16], n: usize, d: usize) -> Sums
    requires { (state_length ≤ length state.now) × T (holds_state? document_01 state.now)
        × (1 ≤ n) × (n ≤ exponents_length) × (d < hilbert_degrees) }
    ensures { (result.even ≡ (both_sums_definition n d (columns_of state.now)).0)
        × (result.odd ≡ (both_sums_definition n d (columns_of state.now)).1) × (result.even < sum_bound) }
{
    let mut even: u64 = 0;
    let mut odd: u64 = 0;
    for c in (0..words::PAGE_COLUMNS).rev() {
        let sum = column_value(counting::column(state, c), n, d) + odd;
        odd = even;
        even = sum;
    }
    Sums { even, odd }
}

// "the alternating sum over the columns, column 0 positive": in degree d. It is never negative, by the theorem on the levels of a file.
pub fn hilbert_value(state: &[u16], n: usize, d: usize) -> u64
    requires { (state_length ≤ length state.now) × T (holds_state? document_01 state.now)
        × (1 ≤ n) × (n ≤ exponents_length) × (d < hilbert_degrees) }
    ensures { (result ≡ hilbert_value_definition n (columns_of state.now) d) × (result < sum_bound) }
{
    let s = both_sums(state, n, d);
    s.even.saturating_sub(s.odd)
}
