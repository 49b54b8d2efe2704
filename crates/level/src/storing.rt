// A lifted level written into the state, vector after vector, and made complete.
// Knows: crate definitions' Layout, through state::writing.
// The vectors stand in a slice of their own: their ends first, their rows from word 128 on.
ghost use Rattle.std.specs.Prelude.{◌≡◌, ◌+◌, ◌*◌, ◌≤◌, ◌<◌, T, length, set};
ghost use Rattle.definitions.specs.Limits.{document_01};
ghost use Rattle.definitions.specs.State.{sound?};
ghost use Rattle.definitions.specs.Layout.{encode, all_words_sound?};
ghost use Rattle.definitions.specs.Places.{most_vectors, all_levels, state_length, count_offset};
ghost use Rattle.state.specs.degrees.Carrying.{carried_right?};
ghost use Rattle.level.specs.storing.Stored.{KeptApart, with_level, Appended, Added};

use state::{degrees, writing};

// The vectors that the slice holds, as those of level k.
fn append_all(state: &mut [u16], k: usize, count: usize, out: &[u16])
    requires { (state_length ≤ length state.old) × (k < all_levels) × T (all_words_sound? document_01 state.old k) × KeptApart count out.now }
    ensures { Appended state.old state.new k count out.now }
{
    let mut used: usize = 0;
    for i in 0..count {
        let end = words::place(out[i]);
        let start = words::ENDS_LENGTH + used * words::ROW_LENGTH;
        writing::append(state, k, i, used, &out[start..], end - used);
        used = end;
    }
}

// Level k has so many vectors and is the highest one.
fn complete(state: &mut [u16], k: usize, count: usize)
    requires { (state_length ≤ length state.old) × (k < all_levels) × (count ≤ most_vectors) }
    ensures { state.new ≡ set (set state.old (count_offset k) count) 4 (k + 1) }
{
    state[words::HEADER_LENGTH + k * words::COUNTS_LENGTH] = count as u16;
    state[4] = (k + 1) as u16;
}

// Level k of the state is what the slice holds, and carries its degrees; those above are dropped. Unused places stay as they are.
pub fn add_level(state: &mut [u16], k: usize, count: usize, out: &[u16])
    requires { (state_length ≤ length state.old) × (k < all_levels) × T (all_words_sound? document_01 state.old k) × KeptApart count out.now
        × T (sound? document_01 (with_level state.old k count out.now)) × T (carried_right? state.old k) }
    ensures { Added state.old state.new k count out.now }
{
    append_all(state, k, count, out);
    complete(state, k, count);
    degrees::carry(state, k);
}

// The same, and unused places are zeroed.
pub fn store_level(state: &mut [u16], k: usize, count: usize, out: &[u16])
    requires { (state_length ≤ length state.old) × (k < all_levels) × T (all_words_sound? document_01 state.old k) × KeptApart count out.now
        × T (sound? document_01 (with_level state.old k count out.now)) × T (carried_right? state.old k) }
    ensures { state.new ≡ encode document_01 (length state.old) (with_level state.old k count out.now) }
{
    append_all(state, k, count, out);
    writing::finish(state, k, count);
}
