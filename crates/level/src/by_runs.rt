// A complete level of a state made ready, and what stands over it lifted or divided.
// Knows: crate definitions' Lifting over a state's words, within limits that may be smaller than document 01's.
// Tables and frame are arrays of these functions' own frames, made once a call.
ghost use Rattle.std.specs.Prelude.{◌≡◌, false, ℕ, ◌+◌, ◌*◌, ◌≤◌, length, drop, Ok};
ghost use Rattle.definitions.specs.Monomial.{Vector};
ghost use Rattle.definitions.specs.Lifting.{accept_from};
ghost use Rattle.definitions.specs.Layout.{Words, rows, rows_of, padded};
ghost use Rattle.definitions.specs.Places.{row_length, value_length, images_length, spans_length, ends_length, lifted_length};
ghost use Rattle.definitions.specs.Places.{tables_length};
ghost use Rattle.state.specs.soundness.Places.{count_below};
ghost use Rattle.runs.specs.frame_terms.Vectors.{frame_terms};
ghost use Rattle.level.specs.by_runs.Stages.{
  Base,
  with_working,
  usual,
  Within,
  ground_at,
  joined,
  TablesAt,
  stage_at,
  FramedBy,
  lifted_over,
  lift_over,
  leveled_of,
  StoredAs,
  accepted_behind,
  accepted_over,
  accepted_with,
  Shown,
  LeftIn,
  value_in,
};

use runs::frame_terms::{Accepted, Lifted};
use runs::reduction;
use runs::reduction::Ground;
use runs::run::Strategy;
use state::{preparing, soundness, writing};
use sweeping::lifting;
use vectors::terms;
use words::refusals::{Refusal, Refused};

// The limits of a lifting, in terms: a working value's, a vector's, the tree's work area's, a level's.
#[derive(Clone, Copy)]
pub struct Bounds {
    pub working: usize,
    pub vector: usize,
    pub tree: usize,
    pub room: usize,
}

// Document 01's, but with room for so many terms in a working value (A11).
pub fn with_working(working: usize) -> Bounds
    ensures { result ≡ with_working working }
{
    Bounds {
        working,
        vector: words::MOST_TERMS,
        tree: words::MOST_TREE_TERMS,
        room: words::MOST_ROWS,
    }
}

// Document 01's.
pub fn usual() -> Bounds
    ensures { result ≡ usual }
{
    with_working(words::MOST_TERMS)
}

// How many vectors and rows they have; a value without a reducer, which lifting does not meet.
#[derive(Clone, Copy)]
pub enum Leveled {
    Vectors(usize, usize),
    Stopped(usize),
}

fn images_of(state: &[u16], j: usize) -> usize
    requires { Base state.now j }
    ensures { result ≡ count_below state.now j }
{
    if j == 0 {
        return 0;
    }
    soundness::count_of(state, j - 1)
}

// What lifting over level j reads beside the rows.
pub fn ground_of(state: &[u16], j: usize, b: Bounds) -> Ground
    requires { Base state.now j }
    ensures { result ≡ ground_at b state.now j }
{
    let r = soundness::count_of(state, j);
    let c = preparing::components_of(state, j);
    let images = images_of(state, j);
    Ground {
        p: state[0],
        code: state[2],
        r,
        components: c + 1,
        images,
        working: b.working,
        vector: b.vector,
        tree: b.tree,
        room: b.room,
    }
}

// Spans, ends and images behind the heads.
fn join_tables(tables: &mut [u16], spans: &[u16], ends: &[u16], below: &[u16], above: &[u16])
    requires { (tables_length ≤ length tables.old) × (spans_length ≤ length spans.now) × (ends_length ≤ length ends.now)
        × (images_length ≤ length below.now) × (images_length ≤ length above.now) }
    ensures { tables.new ≡ joined tables.old spans.now ends.now below.now
        above.now }
{
    terms::copy(tables, words::TABLES_SPANS, spans, words::SPANS_LENGTH);
    terms::copy(tables, words::TABLES_ENDS, ends, words::ENDS_LENGTH);
    terms::copy(tables, words::TABLES_BELOW, below, words::IMAGES_LENGTH);
    terms::copy(tables, words::TABLES_ABOVE, above, words::IMAGES_LENGTH);
}

// The tables of a lifting over level j.
pub fn make_tables(tables: &mut [u16], state: &[u16], j: usize)
    requires { Base state.now j × (tables_length ≤ length tables.old) }
    ensures { TablesAt state.now j tables.new }
{
    let mut spans = [0u16; words::SPANS_LENGTH];
    let mut below = [0u16; words::IMAGES_LENGTH];
    let mut above = [0u16; words::IMAGES_LENGTH];
    preparing::fill_leads(tables, &mut spans, state, j);
    preparing::fill_tables(&mut below, &mut above, state, j + 1);
    let ends = words::ENDS_START + j * words::COUNTS_LENGTH;
    join_tables(tables, &spans, &state[ends..], &below, &above);
}

// All frame terms over level j.
fn lift_frame(
    out: &mut [u16],
    work: &mut [u16],
    state: &[u16],
    j: usize,
    frame: &[u16],
    count: usize,
    tables: &[u16],
    w: Strategy,
    b: Bounds,
) -> Result<Lifted, Refusal>
    requires { Base state.now j × TablesAt state.now j tables.now × FramedBy state.now j count frame.now
        × (lifted_length ≤ length out.old) × (b.working * row_length ≤ length work.old) × Within b × (w.stops ≡ false) }
    ensures { lifted_over b state.now j w count frame.now result out.new }
{
    let mut vector = [0u16; words::VECTOR_LENGTH];
    let g = ground_of(state, j, b);
    let start = words::ROWS_START + j * words::LEVEL_LENGTH;
    lifting::lift_all(
        out,
        work,
        &mut vector,
        frame,
        count,
        &state[start..],
        tables,
        g,
        w,
    )
}

// The frame over level j, then all its terms.
fn lift_with(
    out: &mut [u16],
    work: &mut [u16],
    state: &[u16],
    j: usize,
    tables: &[u16],
    w: Strategy,
    b: Bounds,
) -> Result<Leveled, Refusal>
    requires { Base state.now j × TablesAt state.now j tables.now × (lifted_length ≤ length out.old) × (b.working * row_length ≤ length work.old)
        × Within b × (w.stops ≡ false) }
    ensures { ((n : ℕ) × (v : Words) × (leveled_of result out.new v ≡ lift_over b state.now j w n))
        × StoredAs result out.new }
{
    let mut framed = [0u16; words::HEADS_LENGTH];
    let mut gens = [0u16; words::HEADS_LENGTH];
    let r = soundness::count_of(state, j);
    // numbered by code 1, the lexicographic order, whatever the file's (A10)
    let Some(n) = frame::form(&mut framed, words::MOST_VECTORS, &mut gens, tables, r, 1) else {
        return Err(Refusal::Level);
    };
    match lift_frame(out, work, state, j, &framed, n, tables, w, b)? {
        Lifted::Rows(used) => Ok(Leveled::Vectors(n, used)),
        Lifted::Stopped(x) => Ok(Leveled::Stopped(x)),
    }
}

// The level over level j by division or hybrid, which do not stop at a value without a reducer.
pub fn lift_level(
    out: &mut [u16],
    work: &mut [u16],
    state: &[u16],
    j: usize,
    w: Strategy,
    b: Bounds,
) -> Result<Leveled, Refusal>
    requires { Base state.now j × (lifted_length ≤ length out.old) × (b.working * row_length ≤ length work.old) × Within b
        × (w.stops ≡ false) }
    ensures { ((n : ℕ) × (v : Words) × (leveled_of result out.new v ≡ lift_over b state.now j w n))
        × StoredAs result out.new }
{
    let mut tables = [0u16; words::TABLES_LENGTH];
    make_tables(&mut tables, state, j);
    lift_with(out, work, state, j, &tables, w, b)
}

// Rows of another slice in front, zeros after them.
pub fn show(work: &mut [u16], vector: &[u16], n: usize)
    requires { (n * row_length ≤ length vector.now) × (n * row_length ≤ length work.old) }
    ensures { work.new ≡ padded (length work.old) (rows_of (rows vector.now 0 n)) }
{
    writing::copy_rows(work, 0, vector, n);
    terms::clear(work, n * words::ROW_LENGTH);
}

// A value without a reducer, shown in the work area.
fn settle(work: &mut [u16], vector: &[u16], x: Accepted)
    requires { LeftIn x vector.now work.old }
    ensures { Shown (Ok x) (value_in x vector.now) work.new }
{
    if let Accepted::Stopped(_place, n) = x {
        show(work, vector, n);
    }
}

// Division of the frame terms over level 0 behind the first `from`.
fn accept_frame(
    work: &mut [u16],
    state: &[u16],
    frame: &[u16],
    from: usize,
    count: usize,
    tables: &[u16],
) -> Result<Accepted, Refused>
    requires { Base state.now 0 × TablesAt state.now 0 tables.now × FramedBy state.now 0 count frame.now
        × (value_length ≤ length work.old) }
    ensures { (n : ℕ) × (v : Vector) × (accepted_with result v ≡ accept_from (stage_at usual state.now 0) n (from + 1)
        (drop from (frame_terms frame.now count))) × Shown result v work.new }
{
    let mut vector = [0u16; words::VECTOR_LENGTH];
    let g = ground_of(state, 0, usual());
    let x = lifting::accept_all(
        work,
        &mut vector,
        frame,
        from,
        count,
        &state[words::ROWS_START..],
        tables,
        g,
    )?;
    settle(work, &vector, x);
    Ok(x)
}

// The frame over level 0, then the division of its terms.
fn accept_with(
    work: &mut [u16],
    state: &[u16],
    from: usize,
    tables: &[u16],
) -> Result<Accepted, Refused>
    requires { Base state.now 0 × TablesAt state.now 0 tables.now × (value_length ≤ length work.old) }
    ensures { (n : ℕ) × (v : Vector) × (accepted_with result v ≡ accepted_behind state.now from n) × Shown result v work.new }
{
    let mut framed = [0u16; words::HEADS_LENGTH];
    let mut gens = [0u16; words::HEADS_LENGTH];
    let r = soundness::count_of(state, 0);
    // numbered by code 1, the lexicographic order, whatever the file's (A10)
    let Some(n) = frame::form(&mut framed, words::MOST_VECTORS, &mut gens, tables, r, 1) else {
        return Err(Refused {
            refusal: Refusal::Level,
            place: 0,
        });
    };
    accept_frame(work, state, &framed, from, n, tables)
}

// Acceptance of level 0 by division, where the first `from` frame terms are known to divide to zero.
pub fn accept_behind(work: &mut [u16], state: &[u16], from: usize) -> Result<Accepted, Refused>
    requires { Base state.now 0 × (value_length ≤ length work.old) }
    ensures { (n : ℕ) × (v : Vector) × (accepted_with result v ≡ accepted_behind state.now from n) × Shown result v work.new }
{
    let mut tables = [0u16; words::TABLES_LENGTH];
    make_tables(&mut tables, state, 0);
    accept_with(work, state, from, &tables)
}

// Acceptance of level 0 by division.
pub fn accept_level(work: &mut [u16], state: &[u16]) -> Result<Accepted, Refused>
    requires { Base state.now 0 × (value_length ≤ length work.old) }
    ensures { (n : ℕ) × (v : Vector) × (accepted_with result v ≡ accepted_over state.now n) × Shown result v work.new }
{
    accept_behind(work, state, 0)
}
