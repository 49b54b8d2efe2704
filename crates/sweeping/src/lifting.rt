// All frame terms of a level, batch by batch: by a pass over their table, or, where there is none, by their run; acceptance likewise.
// Knows: crate definitions' Lifting, as runs::frame_terms.
ghost use Rattle.std.specs.Prelude.{◌≡◌, Ok, IfSome, true, false, [], ℕ, ◌+◌, ◌*◌, ◌≤◌, ◌<◌, length, set, drop};
ghost use Rattle.std.proofs.Math.Seq.{paste};
ghost use Rattle.definitions.specs.Layout.{row_at};
ghost use Rattle.definitions.specs.Lifting.{lift_all as lift_all_definition, accept_from, accepting_place};
ghost use Rattle.definitions.specs.Run.{run as run_definition};
ghost use Rattle.definitions.specs.Places.{most_vectors, row_length, ends_length, most_nodes, table_spans_length};
ghost use Rattle.ending.specs.Well.{Well};
ghost use Rattle.monomial.specs.Values.{monomial_of};
ghost use Rattle.runs.specs.reduction.Grounds.{ends_in, below_in, above_in, Tables, Family};
ghost use Rattle.runs.specs.run.Stages.{order_of, stage_of, strategy_of, Images, Rooms, outcome_of, Ended};
ghost use Rattle.runs.specs.frame_terms.Vectors.{
  lifted_vectors,
  Kept,
  Framed,
  frame_terms,
  lifts,
  lifted_one,
  one_of,
  After,
  lifted_of,
  Whole,
  accepted_of,
  Left,
};
ghost use Rattle.definitions.specs.Stage.{Stage};
ghost use Rattle.sweeping.specs.Nodes.{ground_stage, frame_term};
ghost use Rattle.sweeping.specs.Serving.{Grounded, Allowed};
ghost use Rattle.runs.proofs.frame_terms.LoopsOverFrame.{Going};
ghost use Rattle.sweeping.specs.Sweeps.{Areas, Batched, Ready, PassedBy, kept_one};
ghost use Rattle.sweeping.specs.Gone.{GoneAs};
ghost use Rattle.words.specs.refusals.Numbers.{number_of};

use crate::making::Batch;
use crate::{making, passes};
use monomial::Monomial;
use runs::frame_terms::{Accepted, Lifted, One};
use runs::reduction::Ground;
use runs::run::{Outcome, Strategy};
use runs::{reduction, run};
use vectors::terms;
use words::refusals::{Refusal, Refused};

// A level of so many rows seldom reaches more nodes than a small table has.
const FEW_ROWS: usize = 80;

// The rows of frame term v's vector by a pass; none where there is no table, or where a sum of lower order is not zero.
fn pass(
    vector: &mut [u16],
    sums: &mut [u64],
    edges: &[u16],
    spans: &[u16],
    nodes: &[u16],
    order: &[u16],
    b: Batch,
    p: u16,
    v: usize,
    m: Monomial,
) -> Option<usize>
    requires { (b.serves ≡ true → Ready b v nodes.now spans.now edges.now order.now vector.old) × (0 < p)
        × (length order.now ≤ length sums.old)
        × (v < most_vectors) × (table_spans_length ≤ length spans.now) }
    ensures { IfSome result (λ k. PassedBy p b nodes.now spans.now edges.now order.now v (monomial_of m) k vector.new) }
{
    if !b.serves {
        return None;
    }
    let n = b.nodes;
    passes::sweep(
        vector,
        &mut sums[0..n],
        edges,
        spans,
        nodes,
        order,
        n,
        p,
        v,
        m,
    )
}

// Frame term v: by a pass, or by its run.
fn one(
    value: &mut [u16],
    vector: &mut [u16],
    sums: &mut [u64],
    edges: &[u16],
    spans: &[u16],
    nodes: &[u16],
    order: &[u16],
    b: Batch,
    v: usize,
    frame: &[u16],
    count: usize,
    level: &[u16],
    tables: &[u16],
    g: Ground,
    w: Strategy,
) -> Result<Outcome, Refusal>
    requires { Tables g tables.now × Family g level.now (ends_in tables.now) × Images g.images (below_in tables.now)
        × Images g.r (above_in tables.now) × Rooms g value.old vector.old × (1 ≤ g.vector)
        × Well (stage_of g level.now tables.now (order_of g tables.now)) × Framed g count frame.now × (v < count)
        × Grounded g level.now tables.now frame.now count × Allowed w
        × Batched g level.now tables.now frame.now w.drops count v b nodes.now spans.now edges.now order.now × (v < b.to)
        × (length order.now ≤ length sums.old) × (table_spans_length ≤ length spans.now) }
    ensures { ((k : ℕ) × (outcome_of result vector.new ≡ run_definition (ground_stage g level.now tables.now)
        (strategy_of g tables.now w) k (frame_term frame.now v))) × Ended g result }
{
    let m = terms::row(frame, v).monomial;
    match pass(vector, sums, edges, spans, nodes, order, b, g.p, v, m) {
        Some(k) => Ok(Outcome::Finished(k)),
        None => run::run(value, vector, level, tables, g, w, m),
    }
}

// The first v rows of vector behind the used ones, as vector i, counted from 0.
fn append(out: &mut [u16], i: usize, used: usize, vector: &[u16], v: usize)
    requires { (i < most_vectors) × (used + v < 65536) × ((used + v) * row_length + ends_length ≤ length out.old)
        × (v * row_length ≤ length vector.now) }
    ensures { out.new ≡ set (paste out.old (used * row_length + ends_length) vector.now (v * row_length)) i
        (used + v) }
{
    terms::copy(
        out,
        used * words::ROW_LENGTH + words::ENDS_LENGTH,
        vector,
        v * words::ROW_LENGTH,
    );
    out[i] = (used + v) as u16;
}

// What frame term i gave, beside those before it, where its vector has room.
fn keep(
    out: &mut [u16],
    i: usize,
    used: usize,
    vector: &[u16],
    x: Outcome,
    g: Ground,
) -> Result<One, Refusal>
    requires { (i < most_vectors) × (g.room * row_length + ends_length ≤ length out.old) × (g.room < 65536) × (used ≤ g.room)
        × Kept i used out.old × Ended g (Ok x) × (g.vector * row_length ≤ length vector.now) }
    ensures { ((S : Stage) → S.reduction.limits.level_terms ≡ g.room → one_of result i out.new vector.now
        ≡ kept_one S (lifted_vectors out.old i, used) (Ok x) vector.now)
        × After g i result out.new }
{
    match x {
        Outcome::Finished(v) => {
            if g.room - used < v {
                return Err(Refusal::Level);
            }
            append(out, i, used, vector, v);
            Ok(One::Used(used + v))
        }
        Outcome::Stopped(n) => Ok(One::Stopped(n)),
    }
}

// The frame terms before this one are lifted, to so many rows; or as for a level.
#[derive(Clone, Copy)]
pub enum Gone {
    At(usize, usize),
    Stopped(usize),
}

// Whether frame terms are left to a larger table: this one has not all of them, or does not serve.
fn left(b: Batch, count: usize, leaves: bool) -> bool
    ensures { result ≡ true → leaves ≡ true }
{
    leaves && (b.to < count || !b.serves)
}

// The frame terms from frame term `start` on, with these slices for their tables.
fn lift_on(
    out: &mut [u16],
    value: &mut [u16],
    vector: &mut [u16],
    nodes: &mut [u16],
    edges: &mut [u16],
    spans: &mut [u16],
    order: &mut [u16],
    sums: &mut [u64],
    other: &mut [u64],
    start: usize,
    had: usize,
    frame: &[u16],
    count: usize,
    level: &[u16],
    tables: &[u16],
    g: Ground,
    w: Strategy,
    size: usize,
    leaves: bool,
) -> Result<Gone, Refusal>
    requires { Tables g tables.now × Family g level.now (ends_in tables.now) × Images g.images (below_in tables.now)
        × Images g.r (above_in tables.now) × Rooms g value.old vector.old × (1 ≤ g.vector)
        × Well (stage_of g level.now tables.now (order_of g tables.now)) × Framed g count frame.now
        × (g.room * row_length + ends_length ≤ length out.old) × (g.room < 65536)
        × Grounded g level.now tables.now frame.now count × Allowed w
        × Areas size nodes.old edges.old spans.old order.old sums.old other.old × (length order.old ≤ length sums.old)
        × (start ≤ count) × (had ≤ g.room) × Kept start had out.old
        × Going (ground_stage g level.now tables.now) (strategy_of g tables.now w) frame.now count (lifted_vectors out.old start, had) start }
    ensures { GoneAs g (ground_stage g level.now tables.now) (strategy_of g tables.now w) frame.now count
        leaves result
        out.new vector.new }
{
    let mut b = making::no_batch();
    let mut used = had;
    for i in start..count {
        b = making::renew(
            nodes, edges, spans, order, sums, other, b, i, frame, count, level, tables, g, w.drops,
            size,
        );
        if left(b, count, leaves) {
            return Ok(Gone::At(i, used));
        }
        let x = one(
            value, vector, sums, edges, spans, nodes, order, b, i, frame, count, level, tables, g,
            w,
        )?;
        match keep(out, i, used, vector, x, g)? {
            One::Used(u) => used = u,
            One::Stopped(n) => return Ok(Gone::Stopped(n)),
        }
    }
    Ok(Gone::At(count, used))
}

// With small slices, which cost little to make ready and little of the stack. An array's length is a constant, so each size has a function of its own.
#[inline(never)]
fn lift_few(
    out: &mut [u16],
    value: &mut [u16],
    vector: &mut [u16],
    spans: &mut [u16],
    start: usize,
    had: usize,
    frame: &[u16],
    count: usize,
    level: &[u16],
    tables: &[u16],
    g: Ground,
    w: Strategy,
) -> Result<Gone, Refusal>
    requires { Tables g tables.now × Family g level.now (ends_in tables.now) × Images g.images (below_in tables.now)
        × Images g.r (above_in tables.now) × Rooms g value.old vector.old × (1 ≤ g.vector)
        × Well (stage_of g level.now tables.now (order_of g tables.now)) × Framed g count frame.now
        × (g.room * row_length + ends_length ≤ length out.old) × (g.room < 65536)
        × Grounded g level.now tables.now frame.now count × Allowed w
        × (start ≤ count) × (had ≤ g.room) × Kept start had out.old
        × Going (ground_stage g level.now tables.now) (strategy_of g tables.now w) frame.now count (lifted_vectors out.old start, had) start
        × (table_spans_length ≤ length spans.old) }
    ensures { GoneAs g (ground_stage g level.now tables.now) (strategy_of g tables.now w) frame.now count
        true result out.new vector.new }
{
    // with room for no more nodes a larger table takes no more
    let leaves = words::FEW_NODES < g.working;
    let mut nodes = [0u16; words::FEW_NODES_LENGTH];
    let mut edges = [0u16; words::FEW_EDGES_LENGTH];
    let mut order = [0u16; words::FEW_NODES];
    let mut sums = [0u64; words::FEW_KEYS_LENGTH];
    let mut other = [0u64; words::FEW_KEYS_LENGTH];
    lift_on(
        out,
        value,
        vector,
        &mut nodes,
        &mut edges,
        spans,
        &mut order,
        &mut sums,
        &mut other,
        start,
        had,
        frame,
        count,
        level,
        tables,
        g,
        w,
        words::FEW_NODES,
        leaves,
    )
}

// With large slices, for levels that reach many nodes.
#[inline(never)]
fn lift_many(
    out: &mut [u16],
    value: &mut [u16],
    vector: &mut [u16],
    spans: &mut [u16],
    start: usize,
    had: usize,
    frame: &[u16],
    count: usize,
    level: &[u16],
    tables: &[u16],
    g: Ground,
    w: Strategy,
) -> Result<Gone, Refusal>
    requires { Tables g tables.now × Family g level.now (ends_in tables.now) × Images g.images (below_in tables.now)
        × Images g.r (above_in tables.now) × Rooms g value.old vector.old × (1 ≤ g.vector)
        × Well (stage_of g level.now tables.now (order_of g tables.now)) × Framed g count frame.now
        × (g.room * row_length + ends_length ≤ length out.old) × (g.room < 65536)
        × Grounded g level.now tables.now frame.now count × Allowed w
        × (start ≤ count) × (had ≤ g.room) × Kept start had out.old
        × Going (ground_stage g level.now tables.now) (strategy_of g tables.now w) frame.now count (lifted_vectors out.old start, had) start
        × (table_spans_length ≤ length spans.old) }
    ensures { GoneAs g (ground_stage g level.now tables.now) (strategy_of g tables.now w) frame.now count
        false result out.new vector.new }
{
    let mut nodes = [0u16; words::NODES_LENGTH];
    let mut edges = [0u16; words::EDGES_LENGTH];
    let mut order = [0u16; words::MOST_NODES];
    let mut sums = [0u64; words::KEYS_LENGTH];
    let mut other = [0u64; words::KEYS_LENGTH];
    lift_on(
        out,
        value,
        vector,
        &mut nodes,
        &mut edges,
        spans,
        &mut order,
        &mut sums,
        &mut other,
        start,
        had,
        frame,
        count,
        level,
        tables,
        g,
        w,
        words::MOST_NODES,
        false,
    )
}

// Whether small slices may do: there is no room for more nodes, or the level has few rows, which seldom reach more.
fn small(tables: &[u16], g: Ground) -> bool
    requires { Tables g tables.now × (g.r ≤ length (ends_in tables.now)) }
{
    g.working <= words::FEW_NODES || g.r == 0 || reduction::rows_of(tables, g.r).to <= FEW_ROWS
}

// With small slices; where these have not room for all frame terms, the others once more, with large ones. Never part of another function, as those that have
// the slices are not: so no slices are part of a frame where they are not used.
#[inline(never)]
fn lift_any(
    out: &mut [u16],
    value: &mut [u16],
    vector: &mut [u16],
    start: usize,
    had: usize,
    frame: &[u16],
    count: usize,
    level: &[u16],
    tables: &[u16],
    g: Ground,
    w: Strategy,
    sizes: usize,
) -> Result<Gone, Refusal>
    requires { Tables g tables.now × Family g level.now (ends_in tables.now) × Images g.images (below_in tables.now)
        × Images g.r (above_in tables.now) × Rooms g value.old vector.old × (1 ≤ g.vector)
        × Well (stage_of g level.now tables.now (order_of g tables.now)) × Framed g count frame.now
        × (g.room * row_length + ends_length ≤ length out.old) × (g.room < 65536)
        × Grounded g level.now tables.now frame.now count × Allowed w
        × (start ≤ count) × (had ≤ g.room) × Kept start had out.old
        × Going (ground_stage g level.now tables.now) (strategy_of g tables.now w) frame.now count (lifted_vectors out.old start, had) start }
    ensures { GoneAs g (ground_stage g level.now tables.now) (strategy_of g tables.now w) frame.now count
        false result out.new vector.new }
{
    let mut spans = [0u16; words::TABLE_SPANS_LENGTH];
    if sizes <= 1 {
        return lift_many(
            out, value, vector, &mut spans, start, had, frame, count, level, tables, g, w,
        );
    }
    match lift_few(
        out, value, vector, &mut spans, start, had, frame, count, level, tables, g, w,
    )? {
        Gone::At(i, used) if i < count => lift_any(
            out,
            value,
            vector,
            i,
            used,
            frame,
            count,
            level,
            tables,
            g,
            w,
            sizes - 1,
        ),
        Gone::At(i, used) => Ok(Gone::At(i, used)),
        Gone::Stopped(n) => Ok(Gone::Stopped(n)),
    }
}

// All frame terms, in number order.
pub fn lift_all(
    out: &mut [u16],
    value: &mut [u16],
    vector: &mut [u16],
    frame: &[u16],
    count: usize,
    level: &[u16],
    tables: &[u16],
    g: Ground,
    w: Strategy,
) -> Result<Lifted, Refusal>
    requires { Tables g tables.now × Family g level.now (ends_in tables.now) × Images g.images (below_in tables.now)
        × Images g.r (above_in tables.now) × Rooms g value.old vector.old × (1 ≤ g.vector)
        × Well (stage_of g level.now tables.now (order_of g tables.now)) × Framed g count frame.now
        × (g.room * row_length + ends_length ≤ length out.old) × (g.room < 65536)
        × Grounded g level.now tables.now frame.now count × Allowed w }
    ensures { ((k : ℕ) × (lifted_of result count out.new vector.new
        ≡ lift_all_definition (ground_stage g level.now tables.now)
        (lifts (ground_stage g level.now tables.now) (strategy_of g tables.now w) k) ([], 0) []
        (frame_terms frame.now count))) × Whole g count result out.new }
{
    if count == 0 {
        return Ok(Lifted::Rows(0));
    }
    // how many sizes of slices are tried: the small one first, or the large one alone
    let sizes = if small(tables, g) { 2 } else { 1 };
    match lift_any(
        out, value, vector, 0, 0, frame, count, level, tables, g, w, sizes,
    )? {
        Gone::At(_, used) => Ok(Lifted::Rows(used)),
        Gone::Stopped(n) => Ok(Lifted::Stopped(n)),
    }
}

// Acceptance names the frame term where it has no reducer, and level 0 for any other refusal.
fn place_of(i: usize, refusal: Refusal) -> usize
    ensures { result ≡ accepting_place i (number_of refusal) }
{
    match refusal {
        Refusal::NoReducer => i,
        _ => 0,
    }
}

// Division of the frame terms behind the first `from`, in number order, with these slices for their tables; nothing is kept.
fn accept_on(
    value: &mut [u16],
    vector: &mut [u16],
    nodes: &mut [u16],
    edges: &mut [u16],
    spans: &mut [u16],
    order: &mut [u16],
    sums: &mut [u64],
    other: &mut [u64],
    frame: &[u16],
    from: usize,
    count: usize,
    level: &[u16],
    tables: &[u16],
    g: Ground,
    size: usize,
) -> Result<Accepted, Refused>
    requires { Tables g tables.now × Family g level.now (ends_in tables.now) × Images g.images (below_in tables.now)
        × Images g.r (above_in tables.now) × Rooms g value.old vector.old × (1 ≤ g.vector)
        × Well (stage_of g level.now tables.now (order_of g tables.now)) × Framed g count frame.now
        × Grounded g level.now tables.now frame.now count
        × Areas size nodes.old edges.old spans.old order.old sums.old other.old × (length order.old ≤ length sums.old) }
    ensures { ((k : ℕ) × (accepted_of result vector.new ≡ accept_from (ground_stage g level.now tables.now) k (from + 1)
        (drop from (frame_terms frame.now count)))) × Left g result }
{
    let w = Strategy {
        drops: false,
        pick: 1,
        stops: true,
    };
    let mut b = making::no_batch();
    for i in from..count {
        b = making::renew(
            nodes, edges, spans, order, sums, other, b, i, frame, count, level, tables, g, w.drops,
            size,
        );
        match one(
            value, vector, sums, edges, spans, nodes, order, b, i, frame, count, level, tables, g,
            w,
        ) {
            Ok(Outcome::Finished(_)) => {}
            Ok(Outcome::Stopped(n)) => return Ok(Accepted::Stopped(i + 1, n)),
            Err(refusal) => {
                let place = place_of(i + 1, refusal);
                return Err(Refused { refusal, place });
            }
        }
    }
    Ok(Accepted::Yes)
}

// Acceptance with small slices, as lift_few.
#[inline(never)]
fn accept_few(
    value: &mut [u16],
    vector: &mut [u16],
    frame: &[u16],
    from: usize,
    count: usize,
    level: &[u16],
    tables: &[u16],
    g: Ground,
) -> Result<Accepted, Refused>
    requires { Tables g tables.now × Family g level.now (ends_in tables.now) × Images g.images (below_in tables.now)
        × Images g.r (above_in tables.now) × Rooms g value.old vector.old × (1 ≤ g.vector)
        × Well (stage_of g level.now tables.now (order_of g tables.now)) × Framed g count frame.now
        × Grounded g level.now tables.now frame.now count }
    ensures { ((k : ℕ) × (accepted_of result vector.new ≡ accept_from (ground_stage g level.now tables.now) k (from + 1)
        (drop from (frame_terms frame.now count)))) × Left g result }
{
    let mut nodes = [0u16; words::FEW_NODES_LENGTH];
    let mut edges = [0u16; words::FEW_EDGES_LENGTH];
    let mut spans = [0u16; words::TABLE_SPANS_LENGTH];
    let mut order = [0u16; words::FEW_NODES];
    let mut sums = [0u64; words::FEW_KEYS_LENGTH];
    let mut other = [0u64; words::FEW_KEYS_LENGTH];
    accept_on(
        value,
        vector,
        &mut nodes,
        &mut edges,
        &mut spans,
        &mut order,
        &mut sums,
        &mut other,
        frame,
        from,
        count,
        level,
        tables,
        g,
        words::FEW_NODES,
    )
}

// Acceptance with large slices, as lift_many.
#[inline(never)]
fn accept_many(
    value: &mut [u16],
    vector: &mut [u16],
    frame: &[u16],
    from: usize,
    count: usize,
    level: &[u16],
    tables: &[u16],
    g: Ground,
) -> Result<Accepted, Refused>
    requires { Tables g tables.now × Family g level.now (ends_in tables.now) × Images g.images (below_in tables.now)
        × Images g.r (above_in tables.now) × Rooms g value.old vector.old × (1 ≤ g.vector)
        × Well (stage_of g level.now tables.now (order_of g tables.now)) × Framed g count frame.now
        × Grounded g level.now tables.now frame.now count }
    ensures { ((k : ℕ) × (accepted_of result vector.new ≡ accept_from (ground_stage g level.now tables.now) k (from + 1)
        (drop from (frame_terms frame.now count)))) × Left g result }
{
    let mut nodes = [0u16; words::NODES_LENGTH];
    let mut edges = [0u16; words::EDGES_LENGTH];
    let mut spans = [0u16; words::TABLE_SPANS_LENGTH];
    let mut order = [0u16; words::MOST_NODES];
    let mut sums = [0u64; words::KEYS_LENGTH];
    let mut other = [0u64; words::KEYS_LENGTH];
    accept_on(
        value,
        vector,
        &mut nodes,
        &mut edges,
        &mut spans,
        &mut order,
        &mut sums,
        &mut other,
        frame,
        from,
        count,
        level,
        tables,
        g,
        words::MOST_NODES,
    )
}

// Division of the frame terms behind the first `from`. A run by the greatest term takes no monomial twice, so that one without a table is not long.
pub fn accept_all(
    value: &mut [u16],
    vector: &mut [u16],
    frame: &[u16],
    from: usize,
    count: usize,
    level: &[u16],
    tables: &[u16],
    g: Ground,
) -> Result<Accepted, Refused>
    requires { Tables g tables.now × Family g level.now (ends_in tables.now) × Images g.images (below_in tables.now)
        × Images g.r (above_in tables.now) × Rooms g value.old vector.old × (1 ≤ g.vector)
        × Well (stage_of g level.now tables.now (order_of g tables.now)) × Framed g count frame.now
        × Grounded g level.now tables.now frame.now count }
    ensures { ((k : ℕ) × (accepted_of result vector.new ≡ accept_from (ground_stage g level.now tables.now) k (from + 1)
        (drop from (frame_terms frame.now count)))) × Left g result }
{
    if small(tables, g) {
        accept_few(value, vector, frame, from, count, level, tables, g)
    } else {
        accept_many(value, vector, frame, from, count, level, tables, g)
    }
}
