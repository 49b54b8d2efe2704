// A table for as many frame terms as it can take.
// Knows: crate sweeps' Places.
ghost use Rattle.std.specs.Prelude.{◌≡◌, Bool, false, ◌+◌, ◌*◌, ◌≤◌, ◌<◌, length};
ghost use Rattle.runs.specs.reduction.Grounds.{Tables, Family, ends_in, below_in};
ghost use Rattle.runs.specs.run.Stages.{Images};
ghost use Rattle.runs.specs.frame_terms.Vectors.{Framed};
ghost use Rattle.definitions.specs.Places.{row_length, most_nodes, table_spans_length};
ghost use Rattle.sweeping.specs.Growth.{most_edges};
ghost use Rattle.sweeping.specs.Reaches.{ServingNodes, TakenAs};
ghost use Rattle.sweeping.specs.Sweeps.{Areas, Batched};

use crate::{growing, sorting};
use runs::reduction::Ground;
use vectors::terms;

// Frame terms up to `to` have a table of so many nodes and edges, if it serves.
#[derive(Clone, Copy)]
pub struct Batch {
    pub to: usize,
    pub nodes: usize,
    pub edges: usize,
    pub serves: bool,
}

// Before the first frame term.
pub fn no_batch() -> Batch
    ensures { (result.to ≡ 0) × (result.serves ≡ false) }
{
    Batch {
        to: 0,
        nodes: 0,
        edges: 0,
        serves: false,
    }
}

// How many nodes serve where the slices have room for `size`: as many as a working value may have terms, and one fewer than a vector may.
fn serving_nodes(g: Ground, size: usize) -> usize
    requires { 1 ≤ g.vector }
    ensures { ServingNodes g size result }
{
    let most = size.min(g.working);
    most.min(g.vector - 1)
}

// Frame terms up to `to` are in a table of so many nodes and edges.
#[derive(Clone, Copy)]
pub struct Taken {
    pub to: usize,
    pub nodes: usize,
    pub edges: usize,
}

// Frame terms from i on, as long as they fit the table.
fn take(
    nodes: &mut [u16],
    edges: &mut [u16],
    spans: &mut [u16],
    i: usize,
    frame: &[u16],
    count: usize,
    level: &[u16],
    tables: &[u16],
    g: Ground,
    drops: bool,
    most: usize,
) -> Taken
    requires { Tables g tables.now × Family g level.now (ends_in tables.now) × Framed g count frame.now × (i < count)
        × (most ≤ most_nodes) × (most * 2 * row_length ≤ length nodes.old) × (most_edges most * 2 ≤ length edges.old)
        × (table_spans_length ≤ length spans.old) }
    ensures { TakenAs g level.now tables.now frame.now drops count most i result nodes.new
        spans.new edges.new }
{
    let mut slots = [0u16; words::SLOTS_LENGTH];
    let mut n: usize = 0;
    let mut e: usize = 0;
    for v in i..count {
        let m = terms::row(frame, v).monomial;
        let Some((x, y)) = growing::reach(
            nodes, n, edges, e, &mut slots, spans, v, m, level, tables, g, drops, most,
        ) else {
            return Taken {
                to: v,
                nodes: n,
                edges: e,
            };
        };
        n = x;
        e = y;
    }
    Taken {
        to: count,
        nodes: n,
        edges: e,
    }
}

// The table of a batch that starts with frame term i. Where it can not take that one, that one alone has none; where its nodes are not in order, no frame term
// of the batch has one.
fn make(
    nodes: &mut [u16],
    edges: &mut [u16],
    spans: &mut [u16],
    order: &mut [u16],
    keys: &mut [u64],
    other: &mut [u64],
    i: usize,
    frame: &[u16],
    count: usize,
    level: &[u16],
    tables: &[u16],
    g: Ground,
    drops: bool,
    size: usize,
) -> Batch
    requires { Tables g tables.now × Family g level.now (ends_in tables.now) × Images g.images (below_in tables.now)
        × (1 ≤ g.vector) × Framed g count frame.now × (i < count)
        × Areas size nodes.old edges.old spans.old order.old keys.old other.old }
    ensures { Batched g level.now tables.now frame.now drops count i result nodes.new spans.new
        edges.new order.new × (i < result.to) }
{
    let most = serving_nodes(g, size);
    let t = take(
        nodes, edges, spans, i, frame, count, level, tables, g, drops, most,
    );
    if t.to == i {
        return Batch {
            to: i + 1,
            nodes: 0,
            edges: 0,
            serves: false,
        };
    }
    let serves = sorting::arrange(
        order,
        edges,
        keys,
        other,
        t.edges,
        nodes,
        t.nodes,
        g.code,
        &tables[words::TABLES_BELOW..],
        g.images,
    );
    Batch {
        to: t.to,
        nodes: t.nodes,
        edges: t.edges,
        serves,
    }
}

// The batch of frame term i: the one before if it has it, else a new one.
pub fn renew(
    nodes: &mut [u16],
    edges: &mut [u16],
    spans: &mut [u16],
    order: &mut [u16],
    keys: &mut [u64],
    other: &mut [u64],
    b: Batch,
    i: usize,
    frame: &[u16],
    count: usize,
    level: &[u16],
    tables: &[u16],
    g: Ground,
    drops: bool,
    size: usize,
) -> Batch
    requires { Tables g tables.now × Family g level.now (ends_in tables.now) × Images g.images (below_in tables.now)
        × (1 ≤ g.vector) × Framed g count frame.now × (i < count)
        × Areas size nodes.old edges.old spans.old order.old keys.old other.old
        × Batched g level.now tables.now frame.now drops count i b nodes.old spans.old edges.old order.old }
    ensures { Batched g level.now tables.now frame.now drops count i result nodes.new spans.new
        edges.new order.new × (i < result.to) }
{
    if i < b.to {
        return b;
    }
    make(
        nodes, edges, spans, order, keys, other, i, frame, count, level, tables, g, drops, size,
    )
}
