// What the lifting of a level reads of the state, made once a call: the tables of images below and above it, the leading rows of the level below, the
// spans of their components.
// Knows: crate definitions' Stage, through the tables of reducers::tables and soundness.
// It reads a state whose soundness its caller has tested.
ghost use Rattle.std.specs.Prelude.{◌≡◌, ◌≤◌, ◌<◌, T, length, get_or};
ghost use Rattle.definitions.specs.Limits.{document_01};
ghost use Rattle.definitions.specs.Layout.{holds_state?};
ghost use Rattle.definitions.specs.Places.{all_levels, state_length, heads_length, images_length, spans_length};
ghost use Rattle.state.specs.preparing.Prepared.{components_at, ReadyPair, Led};

use crate::soundness;
use reducers::tables;

// The tables of images over levels 0 to k − 1, above, and over levels 0 to k − 2, below.
pub fn fill_tables(below: &mut [u16], above: &mut [u16], state: &[u16], k: usize)
    requires { (state_length ≤ length state.now) × T (holds_state? document_01 state.now) × (k ≤ get_or state.now 4 0)
        × (images_length ≤ length below.old) × (images_length ≤ length above.old) }
    ensures { ReadyPair state.now k below.new above.new }
{
    for j in 0..k {
        soundness::advance(below, above, state, j);
    }
}

// How many components level k's module has.
pub fn components_of(state: &[u16], k: usize) -> usize
    requires { (state_length ≤ length state.now) × (k ≤ all_levels) }
    ensures { result ≡ components_at state.now k }
{
    if k == 0 {
        return words::place(state[3]);
    }
    soundness::count_of(state, k - 1)
}

// The leading rows of level k and the spans of its components.
pub fn fill_leads(heads: &mut [u16], spans: &mut [u16], state: &[u16], k: usize)
    requires { (state_length ≤ length state.now) × T (holds_state? document_01 state.now) × (k < get_or state.now 4 0)
        × (heads_length ≤ length heads.old) × (spans_length ≤ length spans.old) }
    ensures { Led state.now k heads.new spans.new }
{
    let r = soundness::count_of(state, k);
    let start = words::ROWS_START + k * words::LEVEL_LENGTH;
    let ends = words::ENDS_START + k * words::COUNTS_LENGTH;
    tables::fill_heads(heads, &state[start..], &state[ends..], r, state[0]);
    tables::fill_spans(spans, components_of(state, k) + 1, heads, r);
}
