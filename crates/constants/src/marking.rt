// The marks of all columns of a state: which rows of the matrix that leaves a column elimination does not make zero.
// Knows: crate ranks' Blocks.
// A column's marks begin at every 128th word, as its degrees do in the state.
ghost use Rattle.std.specs.Prelude.{◌≡◌, suc, ◌*◌, ◌≤◌, ◌<◌, T, length, get_or, replicate};
ghost use Rattle.std.proofs.Math.Seq.{paste};
ghost use Rattle.definitions.specs.Limits.{document_01};
ghost use Rattle.definitions.specs.Layout.{decode, holds_state?};
ghost use Rattle.definitions.specs.Places.{most_vectors, all_levels, state_length, marks_length};
ghost use Rattle.columns.specs.counting.Columns.{columns_of, column_of};
ghost use Rattle.ranks.specs.Blocks.{column_marks};
ghost use Rattle.constants.specs.marking.Marked.{Marked};

use crate::{elimination, filling};
use columns::counting;

// The marks of column k + 1, which are those of level k's vectors.
fn mark_level(state: &[u16], k: usize, marks: &mut [u16])
    requires { (state_length ≤ length state.now) × T (holds_state? document_01 state.now) × (k < get_or state.now 4 0) × (k < all_levels)
        × (length marks.old ≡ marks_length) }
    ensures { marks.new ≡ paste marks.old (suc k * most_vectors) (column_marks (decode document_01 state.now)
        (columns_of state.now) (suc k)) (length (column_of state.now (suc k))) }
{
    let mut m = [0u16; words::MATRIX_LENGTH];
    let below = counting::column(state, k);
    let own = counting::column(state, k + 1);
    filling::fill_level(&mut m, state, k, own, below);
    elimination::mark_rows(
        &mut m,
        marks,
        (k + 1) * words::MOST_VECTORS,
        own.len(),
        below.len(),
        state[0],
    );
}

// Of all columns, over zeros: none is marked of column 0, nor of a column that is not there.
pub fn mark_columns(state: &[u16], marks: &mut [u16])
    requires { (state_length ≤ length state.now) × T (holds_state? document_01 state.now) × (marks.old ≡ replicate marks_length 0) }
    ensures { Marked state.now marks.new × (length marks.new ≡ marks_length) }
{
    let levels = words::place(state[4]);
    for k in 0..levels {
        mark_level(state, k, marks);
    }
}
