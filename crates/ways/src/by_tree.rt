// The level over a complete level of a state by the tree.
// Knows: crate definitions' Lifting and Tree over a state's words, within limits that may be smaller than document 01's.
// Tables and frame are arrays of these functions' own frames, made once a call.
ghost use Rattle.std.specs.Prelude.{◌≡◌, [], ◌/◌, ◌≤◌, length};
ghost use Rattle.level.specs.by_runs.Stages.{Base, Within, TablesAt, FramedBy, leveled_of, StoredAs};
ghost use Rattle.ways.specs.by_tree.Over.{framed_over, tree_over};
ghost use Rattle.definitions.specs.Places.{row_length, tree_length, grown_length};

use level::by_runs;
use level::by_runs::{Bounds, Leveled};
use runs::frame_terms::Lifted;
use state::soundness;
use tree::frame_terms;
use words::refusals::Refusal;

// All frame terms over level j.
fn lift_frame(
    out: &mut [u16],
    cache: &mut [u16],
    work: &mut [u16],
    state: &[u16],
    j: usize,
    frame: &[u16],
    count: usize,
    tables: &[u16],
    b: Bounds,
) -> Result<Lifted, Refusal>
    requires { Base state.now j × TablesAt state.now j tables.now × FramedBy state.now j count frame.now
        × (grown_length ≤ length out.old) × (tree_length ≤ length work.old) × Within b }
    ensures { framed_over b state.now j (length cache.old / row_length) count frame.now result out.new }
{
    let g = by_runs::ground_of(state, j, b);
    let start = words::ROWS_START + j * words::LEVEL_LENGTH;
    frame_terms::lift_all(out, cache, work, frame, count, &state[start..], tables, g)
}

// The frame over level j, then all its terms.
fn lift_with(
    out: &mut [u16],
    cache: &mut [u16],
    work: &mut [u16],
    state: &[u16],
    j: usize,
    tables: &[u16],
    b: Bounds,
) -> Result<Leveled, Refusal>
    requires { Base state.now j × TablesAt state.now j tables.now × (grown_length ≤ length out.old) × (tree_length ≤ length work.old)
        × Within b }
    ensures { (leveled_of result out.new [] ≡ tree_over b state.now j (length cache.old / row_length))
        × StoredAs result out.new }
{
    let mut framed = [0u16; words::HEADS_LENGTH];
    let mut gens = [0u16; words::HEADS_LENGTH];
    let r = soundness::count_of(state, j);
    // numbered by code 1, the lexicographic order, whatever the file's (A10)
    let Some(n) = frame::form(&mut framed, words::MOST_VECTORS, &mut gens, tables, r, 1) else {
        return Err(Refusal::Level);
    };
    match lift_frame(out, cache, work, state, j, &framed, n, tables, b)? {
        Lifted::Rows(used) => Ok(Leveled::Vectors(n, used)),
        Lifted::Stopped(x) => Ok(Leveled::Stopped(x)),
    }
}

// The level over level j, with a cache of any length.
pub fn lift_level(
    out: &mut [u16],
    cache: &mut [u16],
    work: &mut [u16],
    state: &[u16],
    j: usize,
    b: Bounds,
) -> Result<Leveled, Refusal>
    requires { Base state.now j × (grown_length ≤ length out.old) × (tree_length ≤ length work.old) × Within b }
    ensures { (leveled_of result out.new [] ≡ tree_over b state.now j (length cache.old / row_length))
        × StoredAs result out.new }
{
    let mut tables = [0u16; words::TABLES_LENGTH];
    by_runs::make_tables(&mut tables, state, j);
    lift_with(out, cache, work, state, j, &tables, b)
}
