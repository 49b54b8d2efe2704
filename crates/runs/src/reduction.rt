// Products into a working value, the picks, and one step of a run.
// Knows: crate definitions' Run.
// The value and the vector are rows from row 0 of two lent slices; tables are lent beside them.
ghost use Rattle.std.specs.Prelude.{◌≡◌, ◌+◌, ◌-◌, ◌*◌, ◌≤◌, ◌<◌, true, length, get_or};
ghost use Rattle.std.proofs.Math.Option.{some};
ghost use Rattle.definitions.specs.Monomial.{vector_of};
ghost use Rattle.definitions.specs.Vectors.{store};
ghost use Rattle.definitions.specs.Reducer.{answer};
ghost use Rattle.definitions.specs.Run.{add_term, unless_dropped, dropped?, add_products, multiple, by_code, greatest as greatest_definition};
ghost use Rattle.definitions.specs.Packed.{unpack};
ghost use Rattle.definitions.specs.Layout.{row_at, rows};
ghost use Rattle.definitions.specs.Places.{row_length, image_length, tables_ends, tables_below};
ghost use Rattle.monomial.specs.Values.{monomial_of};
ghost use Rattle.orders.specs.Images.{table_of, table_order, Tabled};
ghost use Rattle.reducers.specs.search.Search.{answer_of};
ghost use Rattle.vectors.specs.terms.Rows.{term_of};
ghost use Rattle.runs.specs.reduction.Grounds.{
  reduction_of,
  ends_in,
  below_in,
  Tables,
  Family,
  family_of,
  first_row,
  added_of,
  Within,
};

use monomial::Monomial;
use reducers::search::{Reducer, Span};
use reducers::{search, tables};
use vectors::sums;
use vectors::sums::Running;
use vectors::terms::Term;
use words::refusals::Refusal;

// What a lifting reads beside the lent slices: p, the order code; how many rows the heads, the spans and the table of images below have; limits.
#[derive(Clone, Copy)]
pub struct Ground {
    pub p: u16,
    pub code: u16,
    pub r: usize,
    pub components: usize,
    pub images: usize,
    pub working: usize,
    pub vector: usize,
    pub tree: usize,
    pub room: usize,
}

// A term into a sum in the order of arrival: the rows that the sum has now, or a refusal where it is full.
pub fn store_term(s: &mut [u16], n: usize, limit: usize, p: u16, t: Term) -> Result<usize, Refusal>
    requires { (0 < p) × (n ≤ limit) × (limit * row_length ≤ length s.old) }
    ensures { (added_of result s.new ≡ store limit p (term_of t) (rows s.old 0 n)) × Within limit result }
{
    sums::store(s, n, limit, p, t).ok_or(Refusal::Terms)
}

// Whether no head of the table divides the monomial.
fn is_lower_order(tables: &[u16], g: Ground, m: Monomial) -> bool
    requires { Tables g tables.now }
    ensures { result ≡ dropped? (reduction_of g tables.now) true (monomial_of m) }
{
    let spans = &tables[words::TABLES_SPANS..];
    search::search(tables, g.r, spans, g.components, m).is_none()
}

// A product that fits, added to the value: one of lower order is dropped where such are.
fn add_fitting(
    value: &mut [u16],
    n: usize,
    t: Term,
    tables: &[u16],
    g: Ground,
    drops: bool,
) -> Result<usize, Refusal>
    requires { Tables g tables.now × (n ≤ g.working) × (g.working * row_length ≤ length value.old) }
    ensures { (added_of result value.new ≡ unless_dropped (dropped? (reduction_of g tables.now) drops (term_of t).1)
        (reduction_of g tables.now) (term_of t) (rows value.old 0 n)) × Within g.working result }
{
    if drops && is_lower_order(tables, g, t.monomial) {
        return Ok(n);
    }
    store_term(value, n, g.working, g.p, t)
}

// The product of c·q and row i, added to the value: an exponent too large is refused before anything else.
fn add_product(
    value: &mut [u16],
    n: usize,
    level: &[u16],
    i: usize,
    c: u16,
    q: u64,
    tables: &[u16],
    g: Ground,
    drops: bool,
) -> Result<usize, Refusal>
    requires { Tables g tables.now × (n ≤ g.working) × (g.working * row_length ≤ length value.old)
        × (i * row_length + row_length ≤ length level.now) }
    ensures { (added_of result value.new ≡ add_term (reduction_of g tables.now) drops
        (multiple g.p c (unpack q) (row_at level.now i)) (rows value.old 0 n)) × Within g.working result }
{
    let t = search::multiplied(level, i, c, q, g.p).ok_or(Refusal::Exponent)?;
    add_fitting(value, n, t, tables, g, drops)
}

// The products of c·q and the rows from row `from` up to row `to`, one by one.
pub fn add_all(
    value: &mut [u16],
    n: usize,
    level: &[u16],
    from: usize,
    to: usize,
    c: u16,
    q: u64,
    tables: &[u16],
    g: Ground,
    drops: bool,
) -> Result<usize, Refusal>
    requires { Tables g tables.now × (n ≤ g.working) × (g.working * row_length ≤ length value.old) × (to * row_length ≤ length level.now) }
    ensures { (added_of result value.new ≡ add_products (reduction_of g tables.now) drops c (unpack q)
        (rows level.now from (to - from)) (rows value.old 0 n)) × Within g.working result }
{
    let mut k = n;
    for i in from..to {
        k = add_product(value, k, level, i, c, q, tables, g, drops)?;
    }
    Ok(k)
}

fn first_of(ends: &[u16], j: usize) -> usize
    requires { (1 ≤ j) × (j ≤ length ends.now) }
    ensures { (result ≡ first_row ends.now j) × (result < 65536) }
{
    if j == 1 {
        return 0;
    }
    words::place(ends[j - 2])
}

// The rows of f_j, all of them.
pub fn rows_of(tables: &[u16], j: usize) -> Span
    requires { (1 ≤ j) × (tables_ends ≤ length tables.now) × (j ≤ length (ends_in tables.now)) }
    ensures { (result.from ≡ first_row (ends_in tables.now) j) × (result.to ≡ get_or (ends_in tables.now) (j - 1) 0)
        × (result.from < 65536) × (result.to < 65536) }
{
    let ends = &tables[words::TABLES_ENDS..];
    let from = first_of(ends, j);
    let to = words::place(ends[j - 1]);
    Span { from, to }
}

// The products of c·q and the terms of f_j.
pub fn add_multiple(
    value: &mut [u16],
    n: usize,
    level: &[u16],
    tables: &[u16],
    j: usize,
    c: u16,
    q: u64,
    g: Ground,
    drops: bool,
) -> Result<usize, Refusal>
    requires { Tables g tables.now × Family g level.now (ends_in tables.now) × (n ≤ g.working) × (g.working * row_length ≤ length value.old)
        × (1 ≤ j) × (j ≤ g.r) }
    ensures { (added_of result value.new ≡ add_products (reduction_of g tables.now) drops c (unpack q)
        (vector_of (family_of g level.now (ends_in tables.now)) j) (rows value.old 0 n)) × Within g.working result }
{
    let part = rows_of(tables, j);
    let from = part.from;
    let to = part.to;
    add_all(value, n, level, from, to, c, q, tables, g, drops)
}

// The place of the greatest of n terms: from each best so far, its image beside it, a walk to the next.
pub fn greatest(value: &[u16], n: usize, code: u16, below: &[u16], images: usize) -> usize
    requires { (0 < n) × (n * row_length ≤ length value.now) × (images * image_length ≤ length below.now) × Tabled images below.now }
    ensures { some result ≡ greatest_definition (table_order code (table_of images below.now)) (rows value.now 0 n) }
{
    let image = tables::image_at(value, 0, below, images);
    let mut best = Running { row: 0, image };
    // A while: the position jumps to the next best.
    while best.row + 1 < n {
        let next = sums::walk(value, best.row + 1, n, code, below, images, best.image);
        if n <= next.row {
            return best.row;
        }
        best = next;
    }
    best.row
}

// The place that the pick code says, of n terms.
pub fn pick(value: &[u16], n: usize, pick: u16, tables: &[u16], g: Ground) -> usize
    requires { (0 < n) × (n * row_length ≤ length value.now) × (tables_below ≤ length tables.now)
        × (g.images * image_length ≤ length (below_in tables.now)) × Tabled g.images (below_in tables.now) }
    ensures { some result ≡ by_code (table_order g.code (table_of g.images (below_in tables.now))) pick
        (rows value.now 0 n) }
{
    match pick {
        1 => greatest(value, n, g.code, &tables[words::TABLES_BELOW..], g.images),
        2 => n - 1,
        _ => 0,
    }
}

// The reducer of a term.
pub fn reducer_of(tables: &[u16], g: Ground, t: Term) -> Option<Reducer>
    requires { Tables g tables.now }
    ensures { answer_of result ≡ answer g.p (rows tables.now 0 g.r) (term_of t) }
{
    search::reducer_of(
        tables,
        g.r,
        &tables[words::TABLES_SPANS..],
        g.components,
        g.p,
        t,
    )
}
