// Levels lifted within limits that may be smaller than document 01's, for programs in other languages: tests against the unrelated implementation meet
// 13 to 15 at every place.
// Knows: level::by_runs and ways::by_tree, and the tests of crate lift_call.
// No code of the engine calls it.
ghost use Rattle.std.specs.Prelude.{◌≡◌, ℕ, ◌-◌, ◌≤◌, length};
ghost use Rattle.definitions.specs.Limits.{document_01};
ghost use Rattle.definitions.specs.Monomial.{Vector};
ghost use Rattle.definitions.specs.Layout.{Words, work_words};
ghost use Rattle.definitions.specs.Places.{most_levels, grown_length};
ghost use Rattle.level.specs.by_runs.Stages.{Base, Within, leveled_of, StoredAs};
ghost use Rattle.ways.specs.any_way.Ways.{way_of};
ghost use Rattle.lift_call.specs.Codes.{coded_way};
ghost use Rattle.testing.specs.Lifts.{within?, fits?, lifted_within, number_of, count_of, used_of, told, Counted, bounds_by, called};

use level::by_runs;
use level::by_runs::{Bounds, Leveled};
use runs::run::Strategy;
use ways::any_way::Way;
use ways::{any_way, by_tree};
use words::refusals::Refusal;

// Limits that the buffers' lengths suffice for.
fn within(b: Bounds) -> bool
    ensures { result ≡ within? b }
{
    b.working <= words::MOST_TERMS
        && b.vector <= words::MOST_TERMS
        && 1 <= b.vector
        && b.tree <= words::MOST_TREE_TERMS
        && b.room <= words::MOST_ROWS
}

// Every test is passed.
fn lift_by(
    out: &mut [u16],
    work: &mut [u16],
    cache: &mut [u16],
    state: &[u16],
    k: usize,
    way: Way,
    b: Bounds,
) -> Result<Leveled, Refusal>
    requires { Base state.now (k - 1) × (1 ≤ k) × (k ≤ most_levels) × (grown_length ≤ length out.old)
        × (work_words document_01 (way_of way) ≤ length work.old) × Within b }
    ensures { ((n : ℕ) × (v : Words) × (leveled_of result out.new v
        ≡ lifted_within b state.now k (way_of way) work.old cache.old n)) × StoredAs result out.new }
{
    match way {
        Way::Division => {
            let w = Strategy {
                drops: false,
                pick: 1,
                stops: false,
            };
            by_runs::lift_level(out, work, state, k - 1, w, b)
        }
        Way::Hybrid(pick) => {
            let w = Strategy {
                drops: true,
                pick,
                stops: false,
            };
            let c = Bounds {
                working: any_way::room_of(work.len(), b.working),
                ..b
            };
            by_runs::lift_level(out, work, state, k - 1, w, c)
        }
        Way::Tree => by_tree::lift_level(out, cache, work, state, k - 1, b),
    }
}

// Not 16.
fn fits(state: &[u16], work: &[u16], out: &[u16], way: Way, b: Bounds) -> bool
    ensures { result ≡ fits? state.now work.now out.now (way_of way) b }
{
    words::STATE_LENGTH <= state.len()
        && lift_call::work_length(way) <= work.len()
        && words::GROWN_LENGTH <= out.len()
        && within(b)
}

// 16, then 11 and 12, then the level.
fn lift_tested(
    out: &mut [u16],
    work: &mut [u16],
    cache: &mut [u16],
    state: &[u16],
    k: usize,
    way: Way,
    b: Bounds,
) -> Result<Leveled, Refusal>
    ensures { ((n : ℕ) × (v : Words) × (leveled_of result out.new v
        ≡ called b state.now work.old out.old cache.old k (way_of way) n)) × StoredAs result out.new }
{
    if !fits(state, work, out, way, b) {
        return Err(Refusal::Buffer);
    }
    lift_call::complete(state, k, way)?;
    lift_by(out, work, cache, state, k, way, b)
}

// How many vectors and rows, or a refusal's number.
fn tell(x: Result<Leveled, Refusal>, count: &mut usize, used: &mut usize) -> u16
    ensures { (result ≡ number_of x) × (count.new ≡ count_of x) × (used.new ≡ used_of x) }
{
    *count = 0;
    *used = 0;
    match x {
        Ok(Leveled::Vectors(n, rows)) => {
            *count = n;
            *used = rows;
            0
        }
        Ok(Leveled::Stopped(_n)) => 9,
        Err(refusal) => refusal.number(),
    }
}

// The level over levels 0 to k − 1 of a state: on 0 the slice holds the ends of the vectors, and their rows from word 128 on.
pub fn lifts_level(
    out: &mut [u16],
    work: &mut [u16],
    cache: &mut [u16],
    state: &[u16],
    level: usize,
    way: u16,
    pick: u16,
    working: usize,
    vector: usize,
    tree: usize,
    room: usize,
    count: &mut usize,
    used: &mut usize,
) -> u16
    ensures { ((n : ℕ) × (v : Vector) × (told result count.new out.new v
        ≡ called (bounds_by working vector tree room) state.now work.old out.old cache.old level
        (coded_way way pick) n)) × Counted result count.new used.new out.new }
{
    let b = Bounds {
        working,
        vector,
        tree,
        room,
    };
    let w = lift_call::way_by(way, pick);
    let x = lift_tested(out, work, cache, state, level, w, b);
    tell(x, count, used)
}
