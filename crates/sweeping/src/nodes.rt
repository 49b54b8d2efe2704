// The nodes of a table: found by their monomials, and made; edges.
// Knows: crate definitions' Reducer, through runs::reduction.
// Nothing is promised of the slots, where nodes are looked for first: a node that is there twice is seen when the nodes are put in order.
ghost use Rattle.std.specs.Prelude.{◌≡◌, Bool, false, ℕ, ◌+◌, ◌*◌, ◌≤◌, ◌<◌, length};
ghost use Rattle.definitions.specs.Reducer.{answer as answer_definition};
ghost use Rattle.definitions.specs.Run.{dropped?};
ghost use Rattle.definitions.specs.Layout.{rows};
ghost use Rattle.definitions.specs.Places.{row_length, slots_length};
ghost use Rattle.monomial.specs.Values.{monomial_of};
ghost use Rattle.vectors.specs.terms.Rows.{term_of};
ghost use Rattle.runs.specs.reduction.Grounds.{Tables, reduction_of};
ghost use Rattle.sweeping.specs.Nodes.{Says};
ghost use Rattle.sweeping.specs.Made.{FoundAs, ToldOf, Added, Edged};

use monomial::Monomial;
use runs::reduction;
use runs::reduction::Ground;
use vectors::terms;
use vectors::terms::Term;

// A node; or a slot for a new one.
#[derive(Clone, Copy)]
pub enum Spot {
    Node(usize),
    Free(usize),
}

// Where the search for a monomial starts: by a prime below the number of slots.
fn slot_of(m: Monomial) -> usize
    ensures { result < slots_length }
{
    let x = m.exponents ^ (u64::from(m.component) * 977);
    (x % 2039) as usize
}

// The slot behind slot h; behind the last one the first.
fn next_slot(h: usize) -> usize
    requires { h < slots_length }
    ensures { result < slots_length }
{
    if h + 1 < words::SLOTS_LENGTH {
        h + 1
    } else {
        0
    }
}

// One of the first n nodes with this monomial, or a slot.
pub fn find(nodes: &[u16], n: usize, slots: &[u16], m: Monomial) -> Spot
    requires { (n * 2 * row_length ≤ length nodes.now) × (slots_length ≤ length slots.now) }
    ensures { FoundAs n nodes.now (monomial_of m) result }
{
    let mut h = slot_of(m);
    for _ in 0..words::SLOTS_LENGTH {
        let x = words::place(slots[h]);
        if x == 0 || n < x {
            return Spot::Free(h);
        }
        if terms::same_row(nodes, (x - 1) * 2, m) {
            return Spot::Node(x - 1);
        }
        h = next_slot(h);
    }
    Spot::Free(h)
}

// What is recorded of a node: minus the inverse of its reducer's leading coefficient, the quotient, the reducer's number; no component for lower order.
pub fn record_of(tables: &[u16], g: Ground, m: Monomial) -> Term
    requires { Tables g tables.now }
    ensures { ToldOf g tables.now (monomial_of m) (term_of result) }
{
    let u = Term {
        coefficient: 1,
        monomial: m,
    };
    let Some(reducer) = reduction::reducer_of(tables, g, u) else {
        return Term {
            coefficient: 0,
            monomial: Monomial::UNIT,
        };
    };
    Term {
        coefficient: field::negative(reducer.coefficient, g.p),
        monomial: Monomial {
            exponents: reducer.quotient,
            component: reducer.number as u16,
        },
    }
}

// Node n: its monomial and what is recorded of it.
pub fn add(nodes: &mut [u16], n: usize, m: Monomial, t: Term)
    requires { n * 2 * row_length + row_length + row_length ≤ length nodes.old }
    ensures { Added n (monomial_of m) (term_of t) nodes.old nodes.new }
{
    let u = Term {
        coefficient: 0,
        monomial: m,
    };
    terms::put(nodes, n * 2, u);
    terms::put(nodes, n * 2 + 1, t);
}

// Edge e: to node x.
pub fn put_edge(edges: &mut [u16], e: usize, x: usize, c: u16)
    requires { (e * 2 + 2 ≤ length edges.old) × (x < 65536) }
    ensures { Edged e x c edges.old edges.new }
{
    edges[e * 2] = x as u16;
    edges[e * 2 + 1] = c;
}
