// The lifting of a term and the lifting of a list, which call each other; what falls is the work area that unfinished subtrees leave.
// Knows: crate definitions' Tree.
// Unfinished sums are one stack from row 0 of the work area, so the row where a sum starts is the number of terms that count elsewhere.
ghost use Rattle.std.specs.Prelude.{◌≡◌, ◌+◌, ◌-◌, ◌*◌, ◌≤◌, ◌<◌, ltb, length, Ok};
ghost use Rattle.definitions.specs.Field.{minus};
ghost use Rattle.definitions.specs.Packed.{unpack};
ghost use Rattle.definitions.specs.Layout.{rows};
ghost use Rattle.definitions.specs.Tree.{lift_term as term_definition, lift_list as list_definition, open_subtree as open_definition};
ghost use Rattle.definitions.specs.Places.{row_length};
ghost use Rattle.monomial.specs.Values.{monomial_of};
ghost use Rattle.orders.specs.Images.{table_of, table_order};
ghost use Rattle.runs.specs.reduction.Grounds.{above_in, Tables};
ghost use Rattle.runs.specs.run.Stages.{stage_of, Images};
ghost use Rattle.cache.specs.Area.{Keeps};
ghost use Rattle.cache.specs.Entries.{cache_of, subtree_of, Sized};
ghost use Rattle.tree.specs.subtrees.Sums.{Lent, sum_of, Fits, joined_as, added_to, list_at};

use cache::Subtree;
use monomial::Monomial;
use reducers::search;
use runs::reduction;
use runs::reduction::Ground;
use vectors::terms;
use vectors::terms::Term;
use words::refusals::Refusal;

// The rows of a sum that has grown, and those of the cache.
pub fn joined(x: Option<usize>, used: usize) -> Result<(usize, usize), Refusal>
    ensures { result ≡ joined_as x used }
{
    let n = x.ok_or(Refusal::Terms)?;
    Ok((n, used))
}

// A finished subtree, times c, into its parent's sum. One that waits is counted: the sum must end where it starts.
fn add_subtree(
    cache: &[u16],
    room: usize,
    work: &mut [u16],
    a: usize,
    n: usize,
    s: Subtree,
    c: u16,
    tables: &[u16],
    g: Ground,
) -> Result<(usize, usize), Refusal>
    requires { Tables g tables.now × (a + n ≤ g.tree) × (g.tree * row_length ≤ length work.old) × (room * row_length ≤ length cache.now)
        × Sized (a + n) g.tree room (Ok s) × Images g.r (above_in tables.now) }
    ensures { (sum_of a result cache.now work.new
        ≡ added_to (table_order g.code (table_of g.r (above_in tables.now))) g.p g.tree a c (rows work.old a n)
        (subtree_of g.tree (Ok s) cache.now work.old)) × Fits a g.tree room result × Keeps a work.old work.new }
{
    let above = &tables[words::TABLES_ABOVE..];
    match s {
        Subtree::Cached(from, len, used) => {
            let x = cache::add_part(
                cache, work, a, n, true, from, len, g.tree, c, g.code, above, g.r, g.p,
            );
            joined(x, used)
        }
        Subtree::Waiting(len, used) => {
            let from = g.tree - len;
            let top = from;
            let x = cache::add_part(
                cache, work, a, n, false, from, len, top, c, g.code, above, g.r, g.p,
            );
            joined(x, used)
        }
    }
}

// The lifting of a monomial: of lower order, found in the cache, or a subtree that is opened.
#[cycle(lift_list_lift_term_open_subtree)]
pub fn lift_term(
    cache: &mut [u16],
    used: usize,
    room: usize,
    work: &mut [u16],
    a: usize,
    m: Monomial,
    level: &[u16],
    tables: &[u16],
    g: Ground,
    left: usize,
) -> Result<Subtree, Refusal>
    requires { Lent g used room cache.old work.old level.now tables.now × (a ≤ g.tree) }
    ensures { (subtree_of g.tree result cache.new work.new
        ≡ term_definition (stage_of g level.now tables.now
        (table_order g.code (table_of g.r (above_in tables.now)))) room left a (cache_of used cache.old) (monomial_of m))
        × Sized a g.tree room result × Keeps a work.old work.new }
{
    let t = Term {
        coefficient: 1,
        monomial: m,
    };
    let Some(f) = reduction::reducer_of(tables, g, t) else {
        return Ok(Subtree::Cached(0, 0, used));
    };
    if let Some((from, n)) = cache::look_up(&cache[..], used, m) {
        return Ok(Subtree::Cached(from, n, used));
    }
    open_subtree(
        cache,
        used,
        room,
        work,
        a,
        m,
        f.number,
        f.coefficient,
        f.quotient,
        level,
        tables,
        g,
        left,
    )
}

// A subtree opened: its sum starts with its reducer's multiple, sign turned; the first product cancels its term.
#[cycle(lift_list_lift_term_open_subtree)]
fn open_subtree(
    cache: &mut [u16],
    used: usize,
    room: usize,
    work: &mut [u16],
    a: usize,
    m: Monomial,
    j: usize,
    c: u16,
    q: u64,
    level: &[u16],
    tables: &[u16],
    g: Ground,
    left: usize,
) -> Result<Subtree, Refusal>
    requires { Lent g used room cache.old work.old level.now tables.now × (a ≤ g.tree) × (1 ≤ j) × (j ≤ g.r) }
    ensures { (subtree_of g.tree result cache.new work.new
        ≡ open_definition (ltb a g.tree) (stage_of g level.now tables.now
        (table_order g.code (table_of g.r (above_in tables.now)))) room
        (list_at (stage_of g level.now tables.now (table_order g.code (table_of g.r (above_in tables.now)))) room
        left) a (cache_of used cache.old) (monomial_of m) j (minus g.p c) (unpack q)) × Sized a g.tree room result
        × Keeps a work.old work.new }
{
    if g.tree <= a || left == 0 {
        return Err(Refusal::Terms);
    }
    let d = field::negative(c, g.p);
    let component = j as u16;
    terms::put(
        work,
        a,
        Term {
            coefficient: d,
            monomial: Monomial {
                exponents: q,
                component,
            },
        },
    );
    let part = reduction::rows_of(tables, j);
    let (n, u) = lift_list(
        cache,
        used,
        room,
        work,
        a,
        1,
        d,
        q,
        part.from + 1,
        part.to,
        level,
        tables,
        g,
        left - 1,
    )?;
    Ok(cache::keep(cache, u, room, work, a, n, m, g.tree))
}

// The products of c·q and the rows from row `from` up to row `to`, lifted one by one into the sum of n rows from row a on.
#[cycle(lift_list_lift_term_open_subtree)]
fn lift_list(
    cache: &mut [u16],
    used: usize,
    room: usize,
    work: &mut [u16],
    a: usize,
    n: usize,
    c: u16,
    q: u64,
    from: usize,
    to: usize,
    level: &[u16],
    tables: &[u16],
    g: Ground,
    left: usize,
) -> Result<(usize, usize), Refusal>
    requires { Lent g used room cache.old work.old level.now tables.now × (a + n ≤ g.tree) × (to * row_length ≤ length level.now)
        × (to < 65536) }
    ensures { (sum_of a result cache.new work.new
        ≡ list_definition (stage_of g level.now tables.now
        (table_order g.code (table_of g.r (above_in tables.now))))
        (term_definition (stage_of g level.now tables.now
        (table_order g.code (table_of g.r (above_in tables.now)))) room left) a c (unpack q) (rows level.now from (to - from))
        (rows work.old a n, cache_of used cache.old)) × Fits a g.tree room result × Keeps a work.old work.new }
{
    let mut k = n;
    let mut v = used;
    for i in from..to {
        let t = search::multiplied(level, i, c, q, g.p).ok_or(Refusal::Exponent)?;
        let m = t.monomial;
        let s = lift_term(cache, v, room, work, a + k, m, level, tables, g, left)?;
        let (w, u) = add_subtree(&cache[..], room, work, a, k, s, t.coefficient, tables, g)?;
        k = w;
        v = u;
    }
    Ok((k, v))
}
