// How many generators of a degree each column has: column 0 has the components, column k + 1 the vectors of level k.
// Knows: crate definitions' Betti and Layout, with document 01's limits.
// A column's degrees are words of the state: the components' own, and those that a level's vectors carry.
ghost use Rattle.std.specs.Prelude.{◌≡◌, suc, ◌+◌, ◌-◌, ◌≤◌, ◌<◌, T, eqb, length};
ghost use Rattle.definitions.specs.Limits.{document_01};
ghost use Rattle.definitions.specs.Lists.{count, map, from};
ghost use Rattle.definitions.specs.Layout.{holds_state?};
ghost use Rattle.definitions.specs.Pages.{all_columns};
ghost use Rattle.definitions.specs.Betti.{rows_in_use as rows_definition, smallest, largest, all_rows, betti_count as count_definition};
ghost use Rattle.definitions.specs.Places.{most_vectors, row_shift, page_columns, page_rows, state_length};
ghost use Rattle.columns.specs.counting.Columns.{columns_of, column_of, Stands, totals_of};

use state::{degrees, preparing};

// The smallest and the largest row in use, counted from −10.
#[derive(Clone, Copy)]
pub struct Rows {
    pub low: usize,
    pub high: usize,
}

// ## A column

// How many degrees it has; none where the level is not complete.
pub fn column_length(state: &[u16], c: usize) -> usize
    requires { (state_length ≤ length state.now) × T (holds_state? document_01 state.now) × (c < page_columns) }
    ensures { Stands state.now c result }
{
    if words::place(state[4]) < c {
        return 0;
    }
    preparing::components_of(state, c)
}

// Its degrees.
pub fn column(state: &[u16], c: usize) -> &[u16]
    requires { (state_length ≤ length state.now) × T (holds_state? document_01 state.now) × (c < page_columns) }
    ensures { (result.now ≡ column_of state.now c) × (length result.now ≤ most_vectors) }
{
    let start = degrees::under_start(c);
    &state[start..start + column_length(state, c)]
}

// ## Counts

// How many of the degrees are x, less the shift of rows.
fn count_degrees(ds: &[u16], x: usize) -> u16
    requires { length ds.now ≤ most_vectors }
    ensures { result ≡ count (λ d. eqb (d + row_shift) x) ds.now }
{
    let mut k: u16 = 0;
    for d in ds {
        if words::place(*d) + words::ROW_SHIFT == x {
            k += 1;
        }
    }
    k
}

// "Each count must equal the number of listed vectors of that degree."
pub fn betti_count(state: &[u16], r: usize, c: usize) -> u16
    requires { (state_length ≤ length state.now) × T (holds_state? document_01 state.now) × (c < page_columns) × (r < page_rows) }
    ensures { result ≡ count_definition (columns_of state.now) r c }
{
    count_degrees(column(state, c), r + c)
}

// The counts of row r.
pub fn row_counts(state: &[u16], r: usize) -> [u16; words::PAGE_COLUMNS]
    requires { (state_length ≤ length state.now) × T (holds_state? document_01 state.now) × (r < page_rows) }
    ensures { result ≡ map (count_definition (columns_of state.now) r) all_columns }
{
    let mut counts = [0u16; words::PAGE_COLUMNS];
    for c in 0..words::PAGE_COLUMNS {
        counts[c] = betti_count(state, r, c);
    }
    counts
}

// The totals of all rows: as many as each column has.
pub fn totals(state: &[u16]) -> [u16; words::PAGE_COLUMNS]
    requires { (state_length ≤ length state.now) × T (holds_state? document_01 state.now) }
    ensures { result ≡ map (totals_of (columns_of state.now)) all_columns }
{
    let mut counts = [0u16; words::PAGE_COLUMNS];
    for c in 0..words::PAGE_COLUMNS {
        counts[c] = column_length(state, c) as u16;
    }
    counts
}

// ## Rows in use

// Those from low to high, and those of the degrees of column c.
fn widened(ds: &[u16], c: usize, low: usize, high: usize) -> Rows
    requires { c < page_columns }
    ensures { (result.low ≡ smallest low (map (λ d. d + row_shift - c) ds.now))
        × (result.high ≡ largest high (map (λ d. d + row_shift - c) ds.now)) × (result.low ≤ low) × (high ≤ result.high) }
{
    let mut a = low;
    let mut b = high;
    for d in ds {
        let x = words::place(*d) + words::ROW_SHIFT - c;
        a = a.min(x);
        b = b.max(x);
    }
    Rows { low: a, high: b }
}

// "Every row from the smallest to the largest in use"
pub fn rows_in_use(state: &[u16]) -> Rows
    requires { (state_length ≤ length state.now) × T (holds_state? document_01 state.now) }
    ensures { (all_rows (rows_definition 0 (columns_of state.now)) ≡ from result.low (suc result.high - result.low)) × (result.low ≤ result.high)
        × (result.high < page_rows) }
{
    let first = words::place(state[words::DEGREES_START]) + words::ROW_SHIFT;
    let mut low = first;
    let mut high = first;
    for c in 0..words::PAGE_COLUMNS {
        let w = widened(column(state, c), c, low, high);
        low = w.low;
        high = w.high;
    }
    Rows { low, high }
}
