// Writing the state: a finished vector appended, a level completed, unused places zeroed; and reading a vector out.
// Knows: crate definitions' Layout (encode), with document 01's limits.
// What it writes is always in range, since rows are written as they are read.
ghost use Rattle.std.specs.Prelude.{◌≡◌, ◌+◌, ◌-◌, ◌*◌, ◌≤◌, ◌<◌, T, length, get_or, take, drop};
ghost use Rattle.std.proofs.Math.Seq.{paste};
ghost use Rattle.definitions.specs.Limits.{document_01};
ghost use Rattle.definitions.specs.Monomial.{vector_of};
ghost use Rattle.definitions.specs.State.{sound?};
ghost use Rattle.definitions.specs.Layout.{rows, rows_of, padded, encode, decode, level_at, all_words_sound?, holds_state?};
ghost use Rattle.definitions.specs.Places.{
  most_components,
  most_vectors,
  most_rows,
  all_levels,
  row_length,
  state_length,
  carried_offset,
  vector_length,
};
ghost use Rattle.reducers.specs.tables.Cuts.{start_of};
ghost use Rattle.state.specs.soundness.Places.{count_at, ends_from};
ghost use Rattle.state.specs.writing.LevelSoFar.{words_so_far?, appended, finished, block_cleared, tidied};
ghost use Rattle.state.specs.degrees.Carrying.{carried_right?};
ghost use Rattle.state.specs.writing.Zeroed.{Few, TidiedTo, CarriedTo, LevelsSettled, DegreesSettled};

use crate::{degrees, soundness};
use vectors::terms;

// ## A vector more

// The first v rows of a value, from row `used` on.
pub fn copy_rows(d: &mut [u16], used: usize, value: &[u16], v: usize)
    requires { (v * row_length ≤ length value.now) × ((used + v) * row_length ≤ length d.old) }
    ensures { d.new ≡ paste d.old (used * row_length) (rows_of (rows value.now 0 v)) (v * row_length) }
{
    for j in 0..v {
        let t = terms::row(value, j);
        terms::put(d, used + j, t);
    }
}

// The first v rows of a value as vector count + 1 of level k, whose vectors so far use so many rows.
pub fn append(state: &mut [u16], k: usize, count: usize, used: usize, value: &[u16], v: usize)
    requires { (state_length ≤ length state.old) × (k < all_levels) × (count < most_vectors) × (used + v ≤ most_rows)
        × (v * row_length ≤ length value.now) }
    ensures { state.new ≡ appended state.old k count used (rows value.now 0 v) v }
{
    let start = words::ROWS_START + k * words::LEVEL_LENGTH;
    let stop = start + words::LEVEL_LENGTH;
    copy_rows(&mut state[start..stop], used, value, v);
    let end = (used + v) as u16;
    state[words::HEADER_LENGTH + k * words::COUNTS_LENGTH + 1 + count] = end;
}

// ## Unused places

// The end of the last of level k's first r vectors.
pub fn end_of(state: &[u16], k: usize, r: usize) -> usize
    requires { (state_length ≤ length state.now) × (k < all_levels) × (r ≤ most_vectors) }
    ensures { result ≡ start_of (ends_from state.now k) r }
{
    if r == 0 {
        return 0;
    }
    words::place(state[words::HEADER_LENGTH + k * words::COUNTS_LENGTH + r])
}

// The unused places of level k.
fn tidy_level(state: &mut [u16], k: usize)
    requires { (state_length ≤ length state.old) × (k < all_levels) × (count_at state.old k ≤ most_vectors)
        × (start_of (ends_from state.old k) (count_at state.old k) ≤ most_rows) }
    ensures { state.new ≡ tidied state.old k }
{
    let r = soundness::count_of(state, k);
    let used = end_of(state, k, r);
    let a = words::HEADER_LENGTH + k * words::COUNTS_LENGTH;
    let b = a + words::COUNTS_LENGTH;
    terms::clear(&mut state[a..b], 1 + r);
    let c = words::ROWS_START + k * words::LEVEL_LENGTH;
    let d = c + words::LEVEL_LENGTH;
    terms::clear(&mut state[c..d], used * words::ROW_LENGTH);
}

// The unused places of levels 0 to h − 1.
fn tidy(state: &mut [u16], h: usize)
    requires { (state_length ≤ length state.old) × (h ≤ all_levels) × T (all_words_sound? document_01 state.old h) }
    ensures { TidiedTo state.old state.new h }
{
    for k in 0..h {
        tidy_level(state, k);
    }
}

// The unused degrees of level k.
fn tidy_degrees(state: &mut [u16], k: usize)
    requires { (state_length ≤ length state.old) × (k < all_levels) × (count_at state.old k ≤ most_vectors) }
    ensures { state.new ≡ block_cleared (carried_offset k) most_vectors (count_at state.old k) state.old }
{
    let r = soundness::count_of(state, k);
    let a = words::CARRIED_START + k * words::MOST_VECTORS;
    let b = a + words::MOST_VECTORS;
    terms::clear(&mut state[a..b], r);
}

// The unused degrees of levels 0 to h − 1.
fn tidy_carried(state: &mut [u16], h: usize)
    requires { (state_length ≤ length state.old) × (h ≤ all_levels) × Few state.old h }
    ensures { CarriedTo state.old state.new h }
{
    for k in 0..h {
        tidy_degrees(state, k);
    }
}

// All unused places up to the degrees, of a state with h complete levels.
fn settle_levels(state: &mut [u16], h: usize)
    requires { (state_length ≤ length state.old) × (h ≤ all_levels) × T (all_words_sound? document_01 state.old h) }
    ensures { LevelsSettled state.old state.new h }
{
    tidy(state, h);
    let a = words::HEADER_LENGTH + h * words::COUNTS_LENGTH;
    terms::clear(&mut state[a..words::ROWS_START], 0);
    let b = words::ROWS_START + h * words::LEVEL_LENGTH;
    terms::clear(&mut state[b..words::DEGREES_START], 0);
}

// All unused places of the degrees, and what stands behind the state.
fn settle_degrees(state: &mut [u16], h: usize)
    requires { (state_length ≤ length state.old) × (h ≤ all_levels) × (get_or state.old 3 0 ≤ most_components) × Few state.old h }
    ensures { DegreesSettled state.old state.new h }
{
    tidy_carried(state, h);
    let a = words::DEGREES_START + words::place(state[3]);
    terms::clear(&mut state[a..words::CARRIED_START], 0);
    terms::clear(state, words::CARRIED_START + h * words::MOST_VECTORS);
}

// All unused places of a state with h complete levels. Its words are of sixteen bits: so the rows that are kept are those of what they say.
fn settle(state: &mut [u16], h: usize)
    requires { (state_length ≤ length state.old) × (h ≤ all_levels) × (get_or state.old 4 0 ≡ h) × (get_or state.old 3 0 ≤ most_components)
        × T (all_words_sound? document_01 state.old h) × T (carried_right? state.old h) }
    ensures { state.new ≡ encode document_01 (length state.old) (decode document_01 state.old) }
{
    words::know(state);
    settle_levels(state, h);
    settle_degrees(state, h);
}

// Level k is complete with its vectors so far, and carries their degrees; levels above it are dropped, unused places zeroed.
pub fn finish(state: &mut [u16], k: usize, count: usize)
    requires { (state_length ≤ length state.old) × (k < all_levels) × T (all_words_sound? document_01 state.old k)
        × T (words_so_far? state.old k count) × T (sound? document_01 (finished state.old k count)) × T (carried_right? state.old k) }
    ensures { state.new ≡ encode document_01 (length state.old) (finished state.old k count) }
{
    let r = count as u16;
    let h = (k + 1) as u16;
    state[words::HEADER_LENGTH + k * words::COUNTS_LENGTH] = r;
    state[4] = h;
    degrees::carry(state, k);
    settle(state, k + 1);
}

// ## A vector read out

// The n words from start on at the beginning of out, zeros behind them.
fn copy_out(out: &mut [u16], state: &[u16], start: usize, n: usize)
    requires { (start + n ≤ length state.now) × (n ≤ length out.old) }
    ensures { out.new ≡ padded (length out.old) (take n (drop start state.now)) }
{
    terms::copy(out, 0, &state[start..], n);
    terms::clear(out, n);
}

// Vector v of level k in rows from the beginning of out, zeros behind it. Words of sixteen bits are the rows of what they say.
pub fn fetch_rows(out: &mut [u16], state: &[u16], k: usize, v: usize)
    requires { (state_length ≤ length state.now) × T (holds_state? document_01 state.now) × (1 ≤ k) × (k < get_or state.now 4 0) × (1 ≤ v)
        × (v ≤ count_at state.now k) × (vector_length ≤ length out.old) }
    ensures { out.new ≡ padded (length out.old) (rows_of (vector_of (level_at document_01 state.now k) v)) }
{
    words::know(state);
    let from = end_of(state, k, v - 1);
    let to = end_of(state, k, v);
    copy_out(
        out,
        state,
        words::ROWS_START + k * words::LEVEL_LENGTH + from * words::ROW_LENGTH,
        (to - from) * words::ROW_LENGTH,
    );
}
