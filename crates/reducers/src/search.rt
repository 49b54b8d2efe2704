// The reducer rule over a table of leading rows, and the multiple of a row by a term.
// Knows: crate definitions' Reducer.
// The table's coefficients are the inverses of the leading ones; spans say in which part of the table a component's rows stand.
ghost use Rattle.std.specs.Prelude.{◌≡◌, ◌+◌, ◌-◌, ◌*◌, ◌≤◌, ◌<◌, length};
ghost use Rattle.definitions.specs.Monomial.{divides_monomial?};
ghost use Rattle.definitions.specs.Reducer.{answer as answer_definition};
ghost use Rattle.definitions.specs.Run.{multiple as multiple_definition};
ghost use Rattle.definitions.specs.Packed.{unpack};
ghost use Rattle.definitions.specs.Layout.{row_at, rows};
ghost use Rattle.definitions.specs.Places.{row_length};
ghost use Rattle.monomial.specs.Values.{monomial_of};
ghost use Rattle.vectors.specs.terms.Rows.{term_of};
ghost use Rattle.reducers.specs.search.Search.{
  first_from,
  first_dividing,
  span_at,
  span_of,
  Spanned,
  searched,
  answer_of,
  formed_term,
  multiple_of,
};

use monomial::Monomial;
use vectors::terms;
use vectors::terms::Term;

// The number of an element, from 1, and the coefficient and the quotient of its multiple.
#[derive(Clone, Copy)]
pub struct Reducer {
    pub number: usize,
    pub coefficient: u16,
    pub quotient: u64,
}

#[derive(Clone, Copy)]
pub struct Span {
    pub from: usize,
    pub to: usize,
}

fn row_divides(heads: &[u16], i: usize, m: Monomial) -> bool
    requires { i * row_length + row_length ≤ length heads.now }
    ensures { result ≡ divides_monomial? (row_at heads.now i).1 (monomial_of m) }
{
    let n = terms::row(heads, i).monomial;
    n.divides(m)
}

// The first row that divides, of those from row `from` up to row `to`; the row behind them if there is none.
fn first_in(heads: &[u16], from: usize, to: usize, m: Monomial) -> usize
    requires { to * row_length ≤ length heads.now }
    ensures { result ≡ first_from (λ j. divides_monomial? (row_at heads.now j).1 (monomial_of m)) (to - from) from }
{
    for i in from..to {
        if row_divides(heads, i, m) {
            return i;
        }
    }
    from.max(to)
}

// The part of the table for a component: all of it if the spans have none.
fn span_for(spans: &[u16], k: usize, r: usize, component: u16) -> Span
    requires { k * 2 ≤ length spans.now }
    ensures { span_of result ≡ span_at k r spans.now component }
{
    let i = usize::from(component);
    if k <= i {
        return Span { from: 0, to: r };
    }
    Span {
        from: usize::from(spans[i * 2]),
        to: usize::from(spans[i * 2 + 1]),
    }
}

// The lowest row of the table, from 0, that divides the monomial; r if none does.
pub fn lowest(heads: &[u16], r: usize, spans: &[u16], k: usize, m: Monomial) -> usize
    requires { (r * row_length ≤ length heads.now) × (k * 2 ≤ length spans.now) × Spanned k r spans.now heads.now }
    ensures { result ≡ first_dividing (monomial_of m) (rows heads.now 0 r) 0 }
{
    let s = span_for(spans, k, r, m.component);
    let j = first_in(heads, s.from, s.to, m);
    if j < s.to {
        return j;
    }
    r
}

// The number of the lowest element whose leading monomial divides, from 1, and its row's coefficient.
pub fn search(heads: &[u16], r: usize, spans: &[u16], k: usize, m: Monomial) -> Option<(usize, u16)>
    requires { (r * row_length ≤ length heads.now) × (k * 2 ≤ length spans.now) × Spanned k r spans.now heads.now }
    ensures { result ≡ searched (rows heads.now 0 r) (monomial_of m) }
{
    let j = lowest(heads, r, spans, k, m);
    if j == r {
        return None;
    }
    Some((j + 1, heads[j * words::ROW_LENGTH]))
}

// The reducer rule: no reducer where the term is of lower order.
pub fn reducer_of(
    heads: &[u16],
    r: usize,
    spans: &[u16],
    k: usize,
    p: u16,
    t: Term,
) -> Option<Reducer>
    requires { (0 < p) × (r * row_length ≤ length heads.now) × (k * 2 ≤ length spans.now) × Spanned k r spans.now heads.now }
    ensures { answer_of result ≡ answer_definition p (rows heads.now 0 r) (term_of t) }
{
    let m = t.monomial;
    let (number, head) = search(heads, r, spans, k, m)?;
    let n = terms::row(heads, number - 1).monomial;
    let coefficient = field::times(t.coefficient, head, p);
    let quotient = m.quotient(n);
    Some(Reducer {
        number,
        coefficient,
        quotient,
    })
}

// Row i times c and q, or none where 13's test fails.
pub fn multiplied(s: &[u16], i: usize, c: u16, q: u64, p: u16) -> Option<Term>
    requires { (0 < p) × (i * row_length + row_length ≤ length s.now) }
    ensures { multiple_of result ≡ formed_term (multiple_definition p c (unpack q) (row_at s.now i)) }
{
    let t = terms::row(s, i);
    let monomial = t.monomial.product(q)?;
    let coefficient = field::times(c, t.coefficient, p);
    Some(Term {
        coefficient,
        monomial,
    })
}
