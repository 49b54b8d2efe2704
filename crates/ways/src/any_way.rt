// A level of a sound state lifted by any of the three ways, and stored.
// Knows: crate definitions' Calls, through level::all_levels and by_tree.
ghost use Rattle.std.specs.Prelude.{◌≡◌, ◌/◌, ◌≤◌, min, length};
ghost use Rattle.definitions.specs.Limits.{document_01};
ghost use Rattle.definitions.specs.Lifting.{by_tree};
ghost use Rattle.definitions.specs.Layout.{work_words, lifting_by};
ghost use Rattle.definitions.specs.Places.{row_length, tree_length, grown_length};
ghost use Rattle.level.specs.all_levels.Level.{Liftable, LiftedBy};
ghost use Rattle.ways.specs.any_way.Ways.{way_of};

use crate::by_tree;
use level::{all_levels, by_runs};
use runs::run::Strategy;
use words::refusals::Refusal;

// "by one of three ways"; hybrid's with its pick code.
#[derive(Clone, Copy)]
pub enum Way {
    Division,
    Hybrid(u16),
    Tree,
}

// Level k by the tree; out is for the level while it is made.
fn lift_tree(
    state: &mut [u16],
    work: &mut [u16],
    cache: &mut [u16],
    out: &mut [u16],
    k: usize,
) -> Result<(), Refusal>
    requires { Liftable state.old k × (tree_length ≤ length work.old) × (grown_length ≤ length out.old) }
    ensures { LiftedBy state.old k (by_tree (length cache.old / row_length)) result state.new }
{
    let b = by_runs::usual();
    let x = by_tree::lift_level(out, cache, work, state, k - 1, b);
    all_levels::store(state, k, x, out)
}

// For how many terms of a working value a work area has room: whole rows, "and one for more is used up to" the limit (A11).
pub fn room_of(length: usize, limit: usize) -> usize
    ensures { result ≡ min limit (length / row_length) }
{
    limit.min(length / words::ROW_LENGTH)
}

// Level k.
pub fn lift_by(
    state: &mut [u16],
    work: &mut [u16],
    cache: &mut [u16],
    k: usize,
    way: Way,
) -> Result<(), Refusal>
    requires { Liftable state.old k × (work_words document_01 (way_of way) ≤ length work.old) }
    ensures { LiftedBy state.old k (lifting_by document_01 (way_of way) work.old cache.old) result state.new }
{
    // one place for the level, whatever the way: each way's own would all be part of this function's frame
    let mut out = [0u16; words::GROWN_LENGTH];
    match way {
        Way::Division => {
            let w = Strategy {
                drops: false,
                pick: 1,
                stops: false,
            };
            all_levels::lift_level(state, work, &mut out, k, w, words::MOST_TERMS)
        }
        Way::Hybrid(pick) => {
            let w = Strategy {
                drops: true,
                pick,
                stops: false,
            };
            let room = room_of(work.len(), words::MOST_TERMS);
            all_levels::lift_level(state, work, &mut out, k, w, room)
        }
        Way::Tree => lift_tree(state, work, cache, &mut out, k),
    }
}
