// One pass for one frame term over the nodes in order: its vector, greatest term first.
// Knows: crate sweeps' Places.
// Sums are not reduced until their node is visited.
ghost use Rattle.std.specs.Prelude.{◌≡◌, true, ◌++◌, ℕ, ◌+◌, ◌-◌, ◌*◌, ◌%◌, ◌≤◌, ◌<◌, length, get_or};
ghost use Rattle.definitions.specs.Lists.{◌and◌};
ghost use Rattle.definitions.specs.Field as definition;
ghost use Rattle.definitions.specs.Layout.{rows};
ghost use Rattle.definitions.specs.Places.{most_vectors, row_length, most_nodes, roots_start, table_spans_length};
ghost use Rattle.monomial.specs.Values.{monomial_of};
ghost use Rattle.vectors.specs.terms.Rows.{term_of};
ghost use Rattle.sweeps.specs.Places.{spread_at, places, settled?};
ghost use Rattle.sweeping.specs.Nodes.{record_at, row_of_node, first_edge, edges_end, edges_of, edges_in, first_root, roots_end};
ghost use Rattle.sweeping.specs.Orders.{rows_by};
ghost use Rattle.sweeping.specs.Passes.{Zeros, Onward, Passable, Passes};
ghost use Rattle.sweeping.specs.Sums.{Holds, Spends};
ghost use Rattle.sweeping.specs.Sweeps.{SweptAs};
ghost use Rattle.sweeping.specs.Visits.{most_degree, Ready, Noted, Visited, Skips, Started};

use monomial::Monomial;
use vectors::terms;
use vectors::terms::Term;

// The rows of the vector so far; whether every sum of lower order was zero.
#[derive(Clone, Copy)]
pub struct Pass {
    pub rows: usize,
    pub settled: bool,
}

// Makes every sum zero.
fn clear(sums: &mut [u64])
    ensures { Zeros (length sums.old) sums.new }
{
    for sum in sums.iter_mut() {
        *sum = 0;
    }
}

// c times each edge onto the sum of its node.
fn spread(sums: &mut [u64], words: &[u16], a: usize, b: usize, c: u64)
    requires { Onward 0 (length sums.old) a b words.now × (c ≤ 65535) × Holds (b - a) sums.old }
    ensures { (sums.new ≡ spread_at c (edges_in words.now a (b - a)) sums.old)
        × Spends (b - a) sums.old sums.new }
{
    for k in a..b {
        let i = words::place(words[k * 2]);
        sums[i] += c * u64::from(words[k * 2 + 1]);
    }
}

// A sum modulo p.
fn remainder(s: u64, p: u16) -> u16
    requires { 0 < p }
    ensures { result ≡ s % p }
{
    (s % u64::from(p)) as u16
}

// What is recorded of node y: its reducer's multiple.
fn recorded(nodes: &[u16], y: usize, c: u16, p: u16) -> Term
    requires { (0 < p) × (y * 2 * row_length + row_length + row_length ≤ length nodes.now) }
    ensures { term_of result ≡ (definition.times p c (record_at nodes.now y).0, (record_at nodes.now y).1) }
{
    let t = terms::row(nodes, y * 2 + 1);
    Term {
        coefficient: field::times(c, t.coefficient, p),
        monomial: t.monomial,
    }
}

// A term of the vector, where it has a component: a record has none where its node is of lower order.
fn note(vector: &mut [u16], k: usize, t: Term) -> Pass
    requires { k * row_length + row_length ≤ length vector.old }
    ensures { Noted k (term_of t) result.rows result.settled vector.old vector.new }
{
    if t.monomial.component == 0 {
        return Pass {
            rows: k,
            settled: false,
        };
    }
    terms::put(vector, k, t);
    Pass {
        rows: k + 1,
        settled: true,
    }
}

// The edges of node y, c times.
fn spread_node(sums: &mut [u64], spans: &[u16], words: &[u16], y: usize, c: u16)
    requires { (y * 2 + 2 ≤ length spans.now) × Onward 0 (length sums.old) (first_edge spans.now y) (edges_end spans.now y) words.now
        × Holds most_degree sums.old }
    ensures { (sums.new ≡ spread_at c (edges_of spans.now words.now y) sums.old)
        × Spends most_degree sums.old sums.new }
{
    let a = words::place(spans[y * 2]);
    let b = words::place(spans[y * 2 + 1]);
    spread(sums, words, a, b, u64::from(c));
}

// The node at place x: nothing where its sum is zero modulo p.
fn visit(
    vector: &mut [u16],
    k: usize,
    sums: &mut [u64],
    x: usize,
    n: usize,
    nodes: &[u16],
    spans: &[u16],
    words: &[u16],
    order: &[u16],
    p: u16,
) -> Pass
    requires { (0 < p) × (x < n) × Ready n sums.old nodes.now spans.now words.now order.now
        × (k * row_length + row_length ≤ length vector.old) × Holds most_degree sums.old }
    ensures { Visited p (row_of_node nodes.now spans.now words.now (get_or order.now x 0))
        (get_or sums.old x 0 % p) k result.rows result.settled vector.old vector.new sums.old sums.new }
{
    let c = remainder(sums[x], p);
    if c == 0 {
        return Pass {
            rows: k,
            settled: true,
        };
    }
    let y = words::place(order[x]);
    spread_node(sums, spans, words, y, c);
    let t = recorded(nodes, y, c, p);
    note(vector, k, t)
}

// Whether four sums from place x on are zero.
fn four_zeros(sums: &[u64], x: usize) -> bool
    requires { x + 4 ≤ length sums.now }
    ensures { result ≡ true → Skips x (x + 4) sums.now }
{
    sums[x] == 0 && sums[x + 1] == 0 && sums[x + 2] == 0 && sums[x + 3] == 0
}

// A place from place `from` on before which all are passed over, four at each step.
fn past_zeros(sums: &[u64], from: usize, n: usize) -> usize
    requires { (from ≤ n) × (n ≤ length sums.now) }
    ensures { Skips from result sums.now × (result ≤ n) }
{
    let mut x = from;
    // A while: the place goes on by four.
    while 4 <= n - x && four_zeros(sums, x) {
        x += 4;
    }
    x
}

// A place before which all sums from place `from` on are zero, n at the most: of a large table a frame term reaches few nodes, so most places are passed over.
fn next(sums: &[u64], from: usize, n: usize) -> usize
    requires { (from ≤ n) × (n ≤ length sums.now) }
    ensures { Skips from result sums.now × (result ≤ n) }
{
    for x in past_zeros(sums, from, n)..n {
        if sums[x] != 0 {
            return x;
        }
    }
    n
}

// All places, greatest first, whose sums are not zero; the vector has its first row already.
fn pass_all(
    vector: &mut [u16],
    sums: &mut [u64],
    n: usize,
    nodes: &[u16],
    spans: &[u16],
    words: &[u16],
    order: &[u16],
    p: u16,
) -> Pass
    requires { (0 < p) × Ready n sums.old nodes.now spans.now words.now order.now × (n * row_length + row_length ≤ length vector.old)
        × Holds (n * most_degree) sums.old }
    ensures { (rows vector.new 0 result.rows ≡ rows vector.old 0 1
        ++ places p 0 (rows_by nodes.now spans.now words.now order.now 0 n) sums.old)
        × (result.settled ≡ settled? p 0 (rows_by nodes.now spans.now words.now order.now 0 n) sums.old)
        × (result.rows ≤ n + 1) }
{
    let mut k: usize = 1;
    let mut settled = true;
    let mut x = next(sums, 0, n);
    // A while: the place jumps over sums that are zero.
    while x < n {
        let v = visit(vector, k, sums, x, n, nodes, spans, words, order, p);
        k = v.rows;
        settled = settled && v.settled;
        x = next(sums, x + 1, n);
    }
    Pass { rows: k, settled }
}

// The sums that frame term v's own edges give.
fn start(sums: &mut [u64], spans: &[u16], words: &[u16], v: usize)
    requires { (roots_start + v * 2 + 2 ≤ length spans.now)
        × Onward 0 (length sums.old) (first_root spans.now v) (roots_end spans.now v) words.now }
    ensures { Started spans.now words.now v sums.old sums.new }
{
    let a = words::place(spans[words::ROOTS_START + v * 2]);
    let b = words::place(spans[words::ROOTS_START + v * 2 + 1]);
    clear(sums);
    spread(sums, words, a, b, 1);
}

// The vector of frame term v, m, and whether every sum of lower order is zero.
fn vector_of(
    vector: &mut [u16],
    sums: &mut [u64],
    n: usize,
    nodes: &[u16],
    spans: &[u16],
    words: &[u16],
    order: &[u16],
    p: u16,
    v: usize,
    m: Monomial,
) -> Pass
    requires { (0 < p) × (n ≤ most_nodes) × Ready n sums.old nodes.now spans.now words.now order.now
        × Onward 0 n (first_root spans.now v) (roots_end spans.now v) words.now × (roots_start + v * 2 + 2 ≤ length spans.now)
        × (n * row_length + row_length ≤ length vector.old) }
    ensures { Passes p n nodes.now spans.now words.now order.now v (monomial_of m)
        (rows vector.new 0 result.rows) result.settled × (result.rows ≤ n + 1) }
{
    start(sums, spans, words, v);
    let t = Term {
        coefficient: 1,
        monomial: m,
    };
    terms::put(vector, 0, t);
    pass_all(vector, sums, n, nodes, spans, words, order, p)
}

// The rows of frame term v's vector, m first; none where a sum of lower order is not zero: then the run decides.
pub fn sweep(
    vector: &mut [u16],
    sums: &mut [u64],
    edges: &[u16],
    spans: &[u16],
    nodes: &[u16],
    order: &[u16],
    n: usize,
    p: u16,
    v: usize,
    m: Monomial,
) -> Option<usize>
    requires { Passable n spans.now edges.now order.now × Onward 0 n (first_root spans.now v) (roots_end spans.now v) edges.now
        × (0 < p) × (n ≤ most_nodes) × (n ≤ length sums.old) × (n ≤ length order.now) × (n * 2 * row_length ≤ length nodes.now)
        × (n * row_length + row_length ≤ length vector.old) × (v < most_vectors) × (table_spans_length ≤ length spans.now) }
    ensures { SweptAs p n nodes.now spans.now edges.now order.now v (monomial_of m) result vector.new }
{
    let pass = vector_of(vector, sums, n, nodes, spans, edges, order, p, v, m);
    if pass.settled { Some(pass.rows) } else { None }
}
