// The rows that a tree's lifting works on: sums in the work area, and finished subtrees in the cache or at the work area's end.
// Exists for: `look_up`, `keep`, `held`.
// Knows: crate definitions' Tree.
// An entry of the cache is its rows, then a row with its monomial and, for a coefficient, their number.
#![tactic(auto)]

ghost use Rattle.std.specs.Prelude.{◌≡◌, ◌+◌, ◌-◌, ◌*◌, ◌≤◌, ◌<◌, length, take, drop, Ok};
ghost use Rattle.definitions.specs.Lists.{choose};
ghost use Rattle.definitions.specs.Layout.{rows};
ghost use Rattle.definitions.specs.Tree.{cached, finish, grow, add_result};
ghost use Rattle.definitions.specs.Result.{done};
ghost use Rattle.definitions.specs.Places.{row_length, image_length};
ghost use Rattle.monomial.specs.Values.{monomial_of};
ghost use Rattle.orders.specs.Images.{table_of, table_order, Tabled};
ghost use Rattle.vectors.specs.terms.Rows.{term_of};
ghost use Rattle.cache.specs.Area.{Keeps, Leaves, Apart, grown_of, Room};
ghost use Rattle.cache.specs.Entries.{cache_of, entry_of, Inside, subtree_of, Sized};

use monomial::Monomial;
use vectors::terms::Term;
use vectors::{sums, terms};

// A finished subtree: its rows in the cache, from a row on; or how many rows wait at the work area's end. The cache's rows come last.
#[derive(Clone, Copy)]
pub enum Subtree {
    Cached(usize, usize, usize),
    Waiting(usize, usize),
}

// Where the rows of the newest entry with the monomial stand, and how many they are, by a walk over the entries.
pub fn look_up(cache: &[u16], used: usize, m: Monomial) -> Option<(usize, usize)>
    requires { used * row_length ≤ length cache.now }
    ensures { (entry_of cache.now result ≡ cached (monomial_of m) (cache_of used cache.now)) × Inside used result }
{
    let mut k = used;
    // A while: the position jumps by an entry.
    while 0 < k {
        let n = usize::from(cache[(k - 1) * words::ROW_LENGTH]);
        let from = (k - 1).saturating_sub(n);
        if terms::same_row(cache, k - 1, m) {
            return Some((from, k - 1 - from));
        }
        k = from;
    }
    None
}

// A finished sum of n rows from row a on goes into the cache if it still fits, else to the end of the work area's limit.
pub fn keep(
    cache: &mut [u16],
    used: usize,
    room: usize,
    work: &mut [u16],
    a: usize,
    n: usize,
    m: Monomial,
    limit: usize,
) -> Subtree
    requires { (used ≤ room) × (room * row_length ≤ length cache.old) × (a + n ≤ limit) × (limit * row_length ≤ length work.old)
        × (limit < 65536) }
    ensures { (subtree_of limit (Ok result) cache.new work.new
        ≡ done (finish room (monomial_of m) (rows work.old a n, cache_of used cache.old))) × Sized a limit room (Ok result)
        × Keeps a work.old work.new }
{
    if used + n < room {
        terms::copy(
            cache,
            used * words::ROW_LENGTH,
            &work[a * words::ROW_LENGTH..(a + n) * words::ROW_LENGTH],
            n * words::ROW_LENGTH,
        );
        terms::put(
            cache,
            used + n,
            Term {
                coefficient: n as u16,
                monomial: m,
            },
        );
        return Subtree::Cached(used, n, used + n + 1);
    }
    work.copy_within(
        a * words::ROW_LENGTH..(a + n) * words::ROW_LENGTH,
        (limit - n) * words::ROW_LENGTH,
    );
    Subtree::Waiting(n, used)
}

// The part of the cache or of the work area that holds a finished subtree.
pub fn held<'a>(
    cache: &'a [u16],
    work: &'a [u16],
    in_cache: bool,
    from: usize,
    n: usize,
) -> &'a [u16]
    requires { (from + n) * row_length ≤ length (choose in_cache cache.now work.now) }
    ensures { result.now ≡ take (n * row_length) (drop (from * row_length) (choose in_cache cache.now work.now)) }
{
    let area = if in_cache { cache } else { work };
    &area[from * words::ROW_LENGTH..(from + n) * words::ROW_LENGTH]
}

// A term into the descending sum of n rows from row a on, which must end at row top.
fn insert_row(
    work: &mut [u16],
    a: usize,
    n: usize,
    top: usize,
    code: u16,
    table: &[u16],
    r: usize,
    p: u16,
    t: Term,
) -> Option<usize>
    requires { (0 < p) × (a + n ≤ top) × (top * row_length ≤ length work.old) × (r * image_length ≤ length table.now) × Tabled r table.now }
    ensures { (grown_of a result work.new ≡ grow (table_order code (table_of r table.now)) p top a (term_of t)
        (rows work.old a n)) × Room a top result × Keeps a work.old work.new
        × Leaves top work.old work.new }
{
    sums::insert(
        &mut work[a * words::ROW_LENGTH..top * words::ROW_LENGTH],
        n,
        top - a,
        code,
        table,
        r,
        p,
        t,
    )
}

// A subtree's rows, times c, into the sum of n rows from row a on, the greatest first. Rows that wait stand from row top on.
pub fn add_part(
    cache: &[u16],
    work: &mut [u16],
    a: usize,
    n: usize,
    in_cache: bool,
    from: usize,
    len: usize,
    top: usize,
    c: u16,
    code: u16,
    table: &[u16],
    r: usize,
    p: u16,
) -> Option<usize>
    requires { (0 < p) × (a + n ≤ top) × (top * row_length ≤ length work.old) × (r * image_length ≤ length table.now) × Tabled r table.now
        × ((from + len) * row_length ≤ length (choose in_cache cache.now work.old)) × Apart in_cache top from }
    ensures { (grown_of a result work.new ≡ add_result (table_order code (table_of r table.now)) p top a c
        (rows (choose in_cache cache.now work.old) from len) (rows work.old a n)) × Room a top result
        × Keeps a work.old work.new }
{
    let mut k = n;
    for i in 0..len {
        let part = held(cache, &work[..], in_cache, from, len);
        let u = terms::row(part, i);
        let b = field::times(c, u.coefficient, p);
        k = insert_row(
            work,
            a,
            k,
            top,
            code,
            table,
            r,
            p,
            Term {
                coefficient: b,
                monomial: u.monomial,
            },
        )?;
    }
    Some(k)
}

// A subtree's rows, times c, into a sum of n rows in another slice, the greatest first.
pub fn add_rows(
    s: &mut [u16],
    n: usize,
    limit: usize,
    part: &[u16],
    len: usize,
    c: u16,
    code: u16,
    table: &[u16],
    r: usize,
    p: u16,
) -> Option<usize>
    requires { (0 < p) × (n ≤ limit) × (limit * row_length ≤ length s.old) × (r * image_length ≤ length table.now) × Tabled r table.now
        × (len * row_length ≤ length part.now) }
    ensures { (grown_of 0 result s.new ≡ add_result (table_order code (table_of r table.now)) p limit 0 c
        (rows part.now 0 len) (rows s.old 0 n)) × Room 0 limit result }
{
    let mut k = n;
    for i in 0..len {
        let t = terms::row(part, i);
        let b = field::times(c, t.coefficient, p);
        k = insert_row(
            s,
            0,
            k,
            limit,
            code,
            table,
            r,
            p,
            Term {
                coefficient: b,
                monomial: t.monomial,
            },
        )?;
    }
    Some(k)
}
