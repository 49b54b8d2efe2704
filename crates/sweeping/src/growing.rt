// A table grows by a frame term and all that it reaches.
// Each step gives how many nodes and edges there are then; none where there is no room, or where a product passes the limit on exponents or has a component
// that there is not.
// Knows: crate sweeps' Places (what edges must lead to), through the specs here.
ghost use Rattle.std.specs.Prelude.{◌≡◌, true, false, ℕ, ◌+◌, ◌-◌, ◌*◌, ◌≤◌, ◌<◌, length};
ghost use Rattle.definitions.specs.Monomial.{vector_of};
ghost use Rattle.definitions.specs.Packed.{unpack};
ghost use Rattle.definitions.specs.Run.{dropped?};
ghost use Rattle.definitions.specs.Layout.{Words, row_at, rows};
ghost use Rattle.definitions.specs.Places.{most_vectors, row_length, slots_length, table_spans_length};
ghost use Rattle.monomial.specs.Values.{monomial_of};
ghost use Rattle.runs.specs.reduction.Grounds.{Tables, Family, ends_in, family_of, reduction_of};
ghost use Rattle.sweeping.specs.Nodes.{ground_stage, node_at, Told, Growing, Same, SameSpans};
ghost use Rattle.sweeping.specs.Growth.{most_edges, Roomy, Sized, LedAs, RowedAs, SpannedAs, NodedAs, SpanPut, AllGrownAs};
ghost use Rattle.sweeping.specs.Reaches.{ReachedAs};

use crate::nodes;
use crate::nodes::Spot;
use monomial::Monomial;
use reducers::search;
use runs::reduction;
use runs::reduction::Ground;
use vectors::terms;

// A new node, and an edge to it. A component that there is not is not taken.
fn lead_new(
    nodes: &mut [u16],
    n: usize,
    edges: &mut [u16],
    e: usize,
    slots: &mut [u16],
    h: usize,
    m: Monomial,
    c: u16,
    tables: &[u16],
    g: Ground,
    drops: bool,
    most: usize,
) -> Option<(usize, usize)>
    requires { Tables g tables.now × Roomy most n e nodes.old edges.old slots.old × (e < most_edges most) × (h < slots_length)
        × (dropped? (reduction_of g tables.now) drops (monomial_of m) ≡ false) }
    ensures { Same n e nodes.old edges.old nodes.new edges.new
        × ((level : Words) → Told (ground_stage g level tables.now) drops (g.components - 1) n nodes.old
        → LedAs (ground_stage g level tables.now) drops (g.components - 1) most n e (monomial_of m) c result nodes.old
        edges.old nodes.new edges.new) × Sized most n e result }
{
    let component = usize::from(m.component);
    if most <= n || component == 0 || g.components <= component {
        return None;
    }
    let t = nodes::record_of(tables, g, m);
    nodes::add(nodes, n, m, t);
    slots[h] = (n + 1) as u16;
    nodes::put_edge(edges, e, n, c);
    Some((n + 1, e + 1))
}

// An edge to the product's node, which is made where there is none.
fn lead(
    nodes: &mut [u16],
    n: usize,
    edges: &mut [u16],
    e: usize,
    slots: &mut [u16],
    m: Monomial,
    c: u16,
    tables: &[u16],
    g: Ground,
    drops: bool,
    most: usize,
) -> Option<(usize, usize)>
    requires { Tables g tables.now × Roomy most n e nodes.old edges.old slots.old
        × (dropped? (reduction_of g tables.now) drops (monomial_of m) ≡ false) }
    ensures { Same n e nodes.old edges.old nodes.new edges.new
        × ((level : Words) → Told (ground_stage g level tables.now) drops (g.components - 1) n nodes.old
        → LedAs (ground_stage g level tables.now) drops (g.components - 1) most n e (monomial_of m) c result nodes.old
        edges.old nodes.new edges.new) × Sized most n e result }
{
    if e == most * words::NODE_EDGES {
        return None;
    }
    match nodes::find(nodes, n, slots, m) {
        Spot::Node(x) => {
            nodes::put_edge(edges, e, x, c);
            Some((n, e + 1))
        }
        Spot::Free(h) => lead_new(nodes, n, edges, e, slots, h, m, c, tables, g, drops, most),
    }
}

// Whether a product is left out: it is of lower order, and such are dropped.
fn left_out(tables: &[u16], g: Ground, drops: bool, m: Monomial) -> bool
    requires { Tables g tables.now }
    ensures { result ≡ dropped? (reduction_of g tables.now) drops (monomial_of m) }
{
    drops && search::search(tables, g.r, &tables[words::TABLES_SPANS..], g.components, m).is_none()
}

// The product of c·q and row i: no edge where it is left out.
fn expand_row(
    nodes: &mut [u16],
    n: usize,
    edges: &mut [u16],
    e: usize,
    slots: &mut [u16],
    level: &[u16],
    i: usize,
    c: u16,
    q: u64,
    tables: &[u16],
    g: Ground,
    drops: bool,
    most: usize,
) -> Option<(usize, usize)>
    requires { Tables g tables.now × Roomy most n e nodes.old edges.old slots.old × (i * row_length + row_length ≤ length level.now) }
    ensures { Same n e nodes.old edges.old nodes.new edges.new
        × ((below : Words) → Told (ground_stage g below tables.now) drops (g.components - 1) n nodes.old
        → RowedAs (ground_stage g below tables.now) drops (g.components - 1) most n e c (unpack q) (row_at level.now i) result
        nodes.old edges.old nodes.new edges.new) × Sized most n e result }
{
    let t = terms::row(level, i);
    let u = t.monomial;
    let m = u.product(q)?;
    if left_out(tables, g, drops, m) {
        return Some((n, e));
    }
    let x = field::times(c, t.coefficient, g.p);
    lead(nodes, n, edges, e, slots, m, x, tables, g, drops, most)
}

// The products of c·q and the rows from row `from` up to row `to`.
fn expand(
    nodes: &mut [u16],
    start: usize,
    edges: &mut [u16],
    first: usize,
    slots: &mut [u16],
    level: &[u16],
    from: usize,
    to: usize,
    c: u16,
    q: u64,
    tables: &[u16],
    g: Ground,
    drops: bool,
    most: usize,
) -> Option<(usize, usize)>
    requires { Tables g tables.now × Roomy most start first nodes.old edges.old slots.old × (to * row_length ≤ length level.now) }
    ensures { Same start first nodes.old edges.old nodes.new edges.new
        × ((below : Words) → Told (ground_stage g below tables.now) drops (g.components - 1) start nodes.old
        → SpannedAs (ground_stage g below tables.now) drops (g.components - 1) most start first c (unpack q)
        (rows level.now from (to - from)) result nodes.new edges.new) × Sized most start first result }
{
    let mut n = start;
    let mut e = first;
    for i in from..to {
        (n, e) = expand_row(
            nodes, n, edges, e, slots, level, i, c, q, tables, g, drops, most,
        )?;
    }
    Some((n, e))
}

// The products of node x's multiple but for the first, which is the node.
fn expand_node(
    nodes: &mut [u16],
    n: usize,
    edges: &mut [u16],
    e: usize,
    slots: &mut [u16],
    x: usize,
    level: &[u16],
    tables: &[u16],
    g: Ground,
    drops: bool,
    most: usize,
) -> Option<(usize, usize)>
    requires { Tables g tables.now × Family g level.now (ends_in tables.now) × Roomy most n e nodes.old edges.old slots.old × (x < n)
        × Told (ground_stage g level.now tables.now) drops (g.components - 1) n nodes.old }
    ensures { Same n e nodes.old edges.old nodes.new edges.new
        × NodedAs (ground_stage g level.now tables.now) drops (g.components - 1) e (node_at nodes.old x) result
        nodes.new edges.new × Sized most n e result }
{
    let t = terms::row(nodes, x * 2 + 1);
    let m = t.monomial;
    let j = usize::from(m.component);
    if j == 0 {
        return Some((n, e));
    }
    let part = reduction::rows_of(tables, j);
    expand(
        nodes,
        n,
        edges,
        e,
        slots,
        level,
        part.from + 1,
        part.to,
        t.coefficient,
        m.exponents,
        tables,
        g,
        drops,
        most,
    )
}

// The span whose first word is word `at`: edges from a up to b.
fn put_span(spans: &mut [u16], at: usize, a: usize, b: usize)
    requires { (at + 2 ≤ length spans.old) × (a < 65536) × (b < 65536) }
    ensures { SpanPut at a b spans.old spans.new }
{
    spans[at] = a as u16;
    spans[at + 1] = b as u16;
}

// All nodes from node `start` on, those that come meanwhile too.
fn expand_all(
    nodes: &mut [u16],
    start: usize,
    many: usize,
    edges: &mut [u16],
    first: usize,
    slots: &mut [u16],
    spans: &mut [u16],
    level: &[u16],
    tables: &[u16],
    g: Ground,
    drops: bool,
    most: usize,
) -> Option<(usize, usize)>
    requires { Tables g tables.now × Family g level.now (ends_in tables.now) × Roomy most many first nodes.old edges.old slots.old
        × (start ≤ many) × (table_spans_length ≤ length spans.old)
        × Growing (ground_stage g level.now tables.now) drops (g.components - 1) many start first nodes.old spans.old edges.old }
    ensures { Same many first nodes.old edges.old nodes.new edges.new
        × ((v : ℕ) → SameSpans start v spans.old spans.new)
        × AllGrownAs (ground_stage g level.now tables.now) drops (g.components - 1) result nodes.new spans.new
        edges.new × Sized most many first result }
{
    let mut n = many;
    let mut e = first;
    let mut x = start;
    // A while: nodes come meanwhile.
    while x < n {
        let (y, z) = expand_node(nodes, n, edges, e, slots, x, level, tables, g, drops, most)?;
        put_span(spans, x * 2, e, z);
        n = y;
        e = z;
        x += 1;
    }
    Some((n, e))
}

// The frame term's own edges: to the products of m and its element's terms.
fn begin(
    nodes: &mut [u16],
    n: usize,
    edges: &mut [u16],
    e: usize,
    slots: &mut [u16],
    m: Monomial,
    level: &[u16],
    tables: &[u16],
    g: Ground,
    drops: bool,
    most: usize,
) -> Option<(usize, usize)>
    requires { Tables g tables.now × Family g level.now (ends_in tables.now) × Roomy most n e nodes.old edges.old slots.old
        × (1 ≤ (monomial_of m).1) × ((monomial_of m).1 ≤ g.r)
        × Told (ground_stage g level.now tables.now) drops (g.components - 1) n nodes.old }
    ensures { Same n e nodes.old edges.old nodes.new edges.new
        × SpannedAs (ground_stage g level.now tables.now) drops (g.components - 1) most n e 1 (monomial_of m).0
        (vector_of (family_of g level.now (ends_in tables.now)) (monomial_of m).1) result nodes.new edges.new
        × Sized most n e result }
{
    let i = usize::from(m.component);
    let part = reduction::rows_of(tables, i);
    expand(
        nodes,
        n,
        edges,
        e,
        slots,
        level,
        part.from,
        part.to,
        1,
        m.exponents,
        tables,
        g,
        drops,
        most,
    )
}

// Frame term v, m, and all that it reaches, into the table; what was there stays.
pub fn reach(
    nodes: &mut [u16],
    n: usize,
    edges: &mut [u16],
    e: usize,
    slots: &mut [u16],
    spans: &mut [u16],
    v: usize,
    m: Monomial,
    level: &[u16],
    tables: &[u16],
    g: Ground,
    drops: bool,
    most: usize,
) -> Option<(usize, usize)>
    requires { Tables g tables.now × Family g level.now (ends_in tables.now) × Roomy most n e nodes.old edges.old slots.old
        × (table_spans_length ≤ length spans.old) × (v < most_vectors) × (1 ≤ (monomial_of m).1) × ((monomial_of m).1 ≤ g.r)
        × Growing (ground_stage g level.now tables.now) drops (g.components - 1) n n e nodes.old spans.old edges.old }
    ensures { Same n e nodes.old edges.old nodes.new edges.new
        × SameSpans n v spans.old spans.new
        × ReachedAs (ground_stage g level.now tables.now) drops (g.components - 1) most n e v (monomial_of m) result
        nodes.new spans.new edges.new }
{
    let (x, y) = begin(nodes, n, edges, e, slots, m, level, tables, g, drops, most)?;
    put_span(spans, words::ROOTS_START + v * 2, e, y);
    expand_all(
        nodes, n, x, edges, y, slots, spans, level, tables, g, drops, most,
    )
}
