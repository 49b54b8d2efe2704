// The leaves for programs in other languages: each function works through many rows, so that the bench beside plain Rust times no calls.
// Knows: orders, monomial, reducers::search and vectors::sums; the tables of a state by state::preparing.
// No code of the engine calls it.
ghost use Rattle.std.specs.Prelude.{◌≡◌, [], ◌+◌, ◌*◌, ◌≤◌, ◌<◌, ◌/◌, ltb, length};
ghost use Rattle.definitions.specs.Lists.{choose};
ghost use Rattle.definitions.specs.Layout.{row_at, rows};
ghost use Rattle.definitions.specs.Places.{row_length};
ghost use Rattle.monomial.specs.Values.{product_of};
ghost use Rattle.orders.specs.Images.{comparison_of};
ghost use Rattle.reducers.specs.search.Search.{Spanned, searched};
ghost use Rattle.vectors.specs.terms.Rows.{term_of};
ghost use Rattle.testing.specs.Leaves.{
  greater_mark,
  descent,
  counted,
  descents,
  product_row,
  product_at as product_at_definition,
  filled,
  products,
  place_mark,
  found,
  ready?,
  lower_mark,
  lower,
  sorted,
};

use monomial::Monomial;
use reducers::search;
use state::{preparing, soundness};
use std::cmp::Ordering;
use vectors::terms::Term;
use vectors::{sums, terms};

// ## Comparison

fn greater(c: Ordering) -> usize
    ensures { result ≡ greater_mark (comparison_of c) }
{
    usize::from(c == Ordering::Greater)
}

// 1 where row i is greater than the row behind it.
fn descent_at(s: &[u16], i: usize, code: u16) -> usize
    requires { (i + 2) * row_length ≤ length s.now }
    ensures { (result ≡ descent code s.now i) × (result ≤ 1) }
{
    let x = terms::row(s, i).monomial;
    let y = terms::row(s, i + 1).monomial;
    greater(orders::compare(code, x, y))
}

// How many of the first n rows are greater on level 0 than the row behind; none where there is no row behind the n.
pub fn leaves_descents(s: &[u16], n: usize, code: u16) -> usize
    ensures { result ≡ descents code s.now n }
{
    if s.len() / words::ROW_LENGTH <= n {
        return 0;
    }
    let mut k: usize = 0;
    for i in 0..n {
        k += descent_at(s, i, code);
    }
    k
}

// ## Product

// A product as a row; zeros where it does not fit.
fn row_of(x: Option<Monomial>) -> Term
    ensures { term_of result ≡ product_row (product_of x) }
{
    match x {
        Some(monomial) => Term {
            coefficient: 1,
            monomial,
        },
        None => Term {
            coefficient: 0,
            monomial: Monomial::unit(),
        },
    }
}

// Row i times the exponents of the row behind it.
fn product_at(s: &[u16], i: usize) -> Term
    requires { (i + 2) * row_length ≤ length s.now }
    ensures { term_of result ≡ product_at_definition s.now i }
{
    let x = terms::row(s, i).monomial;
    let y = terms::row(s, i + 1).monomial;
    row_of(x.product(y.exponents))
}

fn fill_products(d: &mut [u16], s: &[u16], n: usize)
    requires { (n * row_length + row_length ≤ length s.now) × (n * row_length ≤ length d.old) }
    ensures { d.new ≡ filled (product_at_definition s.now) d.old n }
{
    for i in 0..n {
        let t = product_at(s, i);
        terms::put(d, i, t);
    }
}

// The products of the first n rows, each with the exponents of the row behind it, in the rows of d; d as it is where the slices are too short.
pub fn leaves_products(d: &mut [u16], s: &[u16], n: usize)
    ensures { d.new ≡ products s.now d.old n }
{
    if n < s.len() / words::ROW_LENGTH && n <= d.len() / words::ROW_LENGTH {
        fill_products(d, s, n);
    }
}

// ## Equality search

fn found_mark(x: Option<usize>) -> usize
    ensures { (result ≡ place_mark x) × (result ≤ 1) }
{
    usize::from(x.is_some())
}

// How many of the first n rows of s have their monomial among the first r rows of d; none where a slice is too short.
pub fn leaves_found(d: &[u16], r: usize, s: &[u16], n: usize) -> usize
    ensures { result ≡ found d.now r s.now n }
{
    if d.len() / words::ROW_LENGTH < r || s.len() / words::ROW_LENGTH < n {
        return 0;
    }
    let mut k: usize = 0;
    for i in 0..n {
        let m = terms::row(s, i).monomial;
        k += found_mark(sums::find(d, r, m));
    }
    k
}

// ## Reducer search

// Whether the state is sound, has level k, and s has n rows.
fn ready(state: &[u16], k: usize, s: &[u16], n: usize) -> bool
    ensures { result ≡ ready? state.now k s.now n }
{
    words::STATE_LENGTH <= state.len()
        && n <= s.len() / words::ROW_LENGTH
        && k < words::place(state[4])
        && soundness::sound(state)
}

fn mark_lower(x: Option<(usize, u16)>) -> usize
    ensures { (result ≡ lower_mark x) × (result ≤ 1) }
{
    usize::from(x.is_none())
}

// How many of n rows none of the heads divides.
fn count_lower(heads: &[u16], r: usize, spans: &[u16], k: usize, s: &[u16], n: usize) -> usize
    requires { (r * row_length ≤ length heads.now) × (k * 2 ≤ length spans.now) × Spanned k r spans.now heads.now
        × (n * row_length ≤ length s.now) }
    ensures { result ≡ counted (λ i. lower_mark (searched (rows heads.now 0 r) (row_at s.now i).1)) n }
{
    let mut x: usize = 0;
    for i in 0..n {
        let m = terms::row(s, i).monomial;
        x += mark_lower(search::search(heads, r, spans, k, m));
    }
    x
}

// How many of n rows are of lower order by the elements of level k; none where the state or the rows are not as they must be.
pub fn leaves_lower(state: &[u16], k: usize, s: &[u16], n: usize) -> usize
    ensures { result ≡ lower state.now k s.now n }
{
    if !ready(state, k, s, n) {
        return 0;
    }
    let mut heads = [0u16; words::HEADS_LENGTH];
    let mut spans = [0u16; words::SPANS_LENGTH];
    preparing::fill_leads(&mut heads, &mut spans, state, k);
    let r = soundness::count_of(state, k);
    let c = preparing::components_of(state, k) + 1;
    count_lower(&heads, r, &spans, c, s, n)
}

// ## Insertion

// The terms of n rows one by one into an empty sum that descends in the order of the module over level k; the number of its rows, none where the state
// or the rows are not as they must be.
pub fn leaves_sort(d: &mut [u16], s: &[u16], n: usize, state: &[u16], k: usize) -> usize
    ensures { rows d.new 0 result ≡ choose (ltb (length d.old / row_length) n) []
        (sorted state.now k s.now n) }
{
    if d.len() / words::ROW_LENGTH < n || !ready(state, k, s, n) {
        return 0;
    }
    let mut below = [0u16; words::IMAGES_LENGTH];
    let mut above = [0u16; words::IMAGES_LENGTH];
    preparing::fill_tables(&mut below, &mut above, state, k + 1);
    let r = soundness::count_of(state, k);
    sums::sort(d, s, n, state[2], &above, r, state[0])
}
