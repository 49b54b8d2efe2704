// All frame terms of a level by the tree, with a cache of any length.
// Knows: crate definitions' Tree and Lifting.
// A frame term's vector is made where it stays, behind the vectors before it (runs::frame_terms says how they are kept).
ghost use Rattle.std.specs.Prelude.{◌≡◌, [], ◌+◌, ◌-◌, ◌*◌, ◌/◌, ◌≤◌, ◌<◌, length, Ok};
ghost use Rattle.definitions.specs.Packed.{unpack};
ghost use Rattle.definitions.specs.Layout.{row_at, rows};
ghost use Rattle.definitions.specs.Tree.{lift_term, lift_vector as vector_definition, tree as tree_definition};
ghost use Rattle.definitions.specs.Lifting.{lift_all as lift_all_definition};
ghost use Rattle.definitions.specs.Places.{row_length, ends_length};
ghost use Rattle.monomial.specs.Values.{monomial_of};
ghost use Rattle.orders.specs.Images.{table_of, table_order};
ghost use Rattle.runs.specs.reduction.Grounds.{ends_in, above_in, Tables, Family};
ghost use Rattle.runs.specs.run.Stages.{stage_of, Images};
ghost use Rattle.cache.specs.Entries.{cache_of, subtree_of, Sized};
ghost use Rattle.tree.specs.subtrees.Sums.{Lent, sum_of, Fits};
ghost use Rattle.runs.specs.frame_terms.Vectors.{lifted_vectors, Kept, Framed, frame_terms, lifted_of, Whole};
ghost use Rattle.tree.specs.frame_terms.Frames.{added_vector, lifted_one, one_of, After, Unstopped};

use crate::subtrees;
use cache::Subtree;
use monomial::Monomial;
use reducers::search;
use runs::frame_terms::Lifted;
use runs::reduction;
use runs::reduction::Ground;
use vectors::terms;
use vectors::terms::Term;
use words::refusals::Refusal;

// A finished subtree, times c, into the vector: the frame term's own sum counts only there.
fn add_result<'a>(
    vector: &mut [u16],
    n: usize,
    cache: &'a [u16],
    room: usize,
    work: &'a [u16],
    s: Subtree,
    c: u16,
    tables: &[u16],
    g: Ground,
) -> Result<(usize, usize), Refusal>
    requires { Tables g tables.now × (n ≤ g.vector) × (g.vector * row_length ≤ length vector.old) × (g.tree * row_length ≤ length work.now)
        × (room * row_length ≤ length cache.now) × Sized 0 g.tree room (Ok s) × Images g.r (above_in tables.now) }
    ensures { (sum_of 0 result cache.now vector.new
        ≡ added_vector (table_order g.code (table_of g.r (above_in tables.now))) g.p g.vector c (rows vector.old 0 n)
        (subtree_of g.tree (Ok s) cache.now work.now)) × Fits 0 g.vector room result }
{
    let above = &tables[words::TABLES_ABOVE..];
    match s {
        Subtree::Cached(from, len, used) => {
            let part = cache::held(cache, work, true, from, len);
            let x = cache::add_rows(vector, n, g.vector, part, len, c, g.code, above, g.r, g.p);
            subtrees::joined(x, used)
        }
        Subtree::Waiting(len, used) => {
            let part = cache::held(cache, work, false, g.tree - len, len);
            let x = cache::add_rows(vector, n, g.vector, part, len, c, g.code, above, g.r, g.p);
            subtrees::joined(x, used)
        }
    }
}

// The products of q and the rows from row `from` up to row `to`, lifted one by one into the vector of n rows.
fn lift_vector(
    vector: &mut [u16],
    n: usize,
    cache: &mut [u16],
    used: usize,
    room: usize,
    work: &mut [u16],
    q: u64,
    from: usize,
    to: usize,
    level: &[u16],
    tables: &[u16],
    g: Ground,
) -> Result<(usize, usize), Refusal>
    requires { Lent g used room cache.old work.old level.now tables.now × (n ≤ g.vector) × (g.vector * row_length ≤ length vector.old)
        × (to * row_length ≤ length level.now) × (to < 65536) }
    ensures { (sum_of 0 result cache.new vector.new
        ≡ vector_definition (stage_of g level.now tables.now
        (table_order g.code (table_of g.r (above_in tables.now))))
        (lift_term (stage_of g level.now tables.now (table_order g.code (table_of g.r (above_in tables.now))))
        room g.tree) 1 (unpack q) (rows level.now from (to - from)) (rows vector.old 0 n, cache_of used cache.old))
        × Fits 0 g.vector room result }
{
    let mut k = n;
    let mut v = used;
    for i in from..to {
        let t = search::multiplied(level, i, 1, q, g.p).ok_or(Refusal::Exponent)?;
        let m = t.monomial;
        let s = subtrees::lift_term(cache, v, room, work, 0, m, level, tables, g, g.tree)?;
        let (w, u) = add_result(
            vector,
            k,
            &cache[..],
            room,
            &work[..],
            s,
            t.coefficient,
            tables,
            g,
        )?;
        k = w;
        v = u;
    }
    Ok((k, v))
}

// A frame term's vector, from row 0 of the slice on.
fn lift_frame_term(
    vector: &mut [u16],
    cache: &mut [u16],
    used: usize,
    room: usize,
    work: &mut [u16],
    m: Monomial,
    level: &[u16],
    tables: &[u16],
    g: Ground,
) -> Result<(usize, usize), Refusal>
    requires { Lent g used room cache.old work.old level.now tables.now × (1 ≤ g.vector) × (g.vector * row_length ≤ length vector.old)
        × (1 ≤ m.component) × (m.component ≤ g.r) }
    ensures { (sum_of 0 result cache.new vector.new
        ≡ tree_definition (stage_of g level.now tables.now
        (table_order g.code (table_of g.r (above_in tables.now)))) room (cache_of used cache.old) (monomial_of m))
        × Fits 0 g.vector room result }
{
    terms::put(
        vector,
        0,
        Term {
            coefficient: 1,
            monomial: m,
        },
    );
    let part = reduction::rows_of(tables, usize::from(m.component));
    lift_vector(
        vector,
        1,
        cache,
        used,
        room,
        work,
        m.exponents,
        part.from,
        part.to,
        level,
        tables,
        g,
    )
}

// The vector of frame term i, added to the i before it, and the rows of the cache.
fn lift_one(
    out: &mut [u16],
    i: usize,
    used: usize,
    cache: &mut [u16],
    u: usize,
    room: usize,
    work: &mut [u16],
    frame: &[u16],
    count: usize,
    level: &[u16],
    tables: &[u16],
    g: Ground,
) -> Result<(usize, usize), Refusal>
    requires { Lent g u room cache.old work.old level.now tables.now × (1 ≤ g.vector) × Framed g count frame.now × (i < count)
        × ((g.room + g.vector) * row_length + ends_length ≤ length out.old) × (g.room < 65536) × (used ≤ g.room) × Kept i used out.old }
    ensures { (one_of result i out.new cache.new
        ≡ lifted_one (stage_of g level.now tables.now (table_order g.code (table_of g.r (above_in tables.now))))
        room (lifted_vectors out.old i, used) (cache_of u cache.old) (row_at frame.now i).1)
        × After g i room result out.new }
{
    let m = terms::row(frame, i).monomial;
    let start = used * words::ROW_LENGTH + words::ENDS_LENGTH;
    let end = start + g.vector * words::ROW_LENGTH;
    let (v, c) = lift_frame_term(
        &mut out[start..end],
        cache,
        u,
        room,
        work,
        m,
        level,
        tables,
        g,
    )?;
    if g.room - used < v {
        return Err(Refusal::Level);
    }
    out[i] = (used + v) as u16;
    Ok((used + v, c))
}

// All frame terms, in number order; the cache is empty at first.
pub fn lift_all(
    out: &mut [u16],
    cache: &mut [u16],
    work: &mut [u16],
    frame: &[u16],
    count: usize,
    level: &[u16],
    tables: &[u16],
    g: Ground,
) -> Result<Lifted, Refusal>
    requires { Tables g tables.now × Family g level.now (ends_in tables.now) × Images g.r (above_in tables.now)
        × Framed g count frame.now × (g.tree * row_length ≤ length work.old) × (g.tree < 65536) × (1 ≤ g.vector)
        × ((g.room + g.vector) * row_length + ends_length ≤ length out.old) × (g.room < 65536) }
    ensures { (lifted_of result count out.new [] ≡ lift_all_definition
        (stage_of g level.now tables.now (table_order g.code (table_of g.r (above_in tables.now))))
        (tree_definition (stage_of g level.now tables.now
        (table_order g.code (table_of g.r (above_in tables.now)))) (length cache.old / row_length)) ([], 0) []
        (frame_terms frame.now count)) × Whole g count result out.new × Unstopped result }
{
    let room = cache.len() / words::ROW_LENGTH;
    let mut used: usize = 0;
    let mut u: usize = 0;
    for i in 0..count {
        let (v, c) = lift_one(
            out, i, used, cache, u, room, work, frame, count, level, tables, g,
        )?;
        used = v;
        u = c;
    }
    Ok(Lifted::Rows(used))
}
