// The degrees of components and vectors (A5): the test of those that a state carries, and those of a level written.
// Knows: crate definitions' Degrees and Layout, with document 01's limits.
// A degree is found from those that stand with the level below, so levels are taken from level 0 upwards.
ghost use Rattle.std.specs.Prelude.{◌≡◌, [], ◌+◌, ◌≤◌, ◌<◌, T, length, get_or, take, drop};
ghost use Rattle.definitions.specs.Limits.{document_01};
ghost use Rattle.definitions.specs.Lists.{◌and◌};
ghost use Rattle.definitions.specs.Monomial.{fits?, same_exponents?};
ghost use Rattle.definitions.specs.Degrees.{degrees_of};
ghost use Rattle.definitions.specs.Layout.{degrees_at};
ghost use Rattle.definitions.specs.Places.{most_degree, most_components, most_vectors, all_levels, degrees_start, state_length};
ghost use Rattle.reducers.specs.tables.Cuts.{Cut, cut_level};
ghost use Rattle.state.specs.soundness.Places.{count_at, rows_from, ends_from};
ghost use Rattle.state.specs.soundness.Holding.{levels_hold?};
ghost use Rattle.state.specs.preparing.Prepared.{components_at};
ghost use Rattle.state.specs.degrees.Carrying.{under_place, weighed_at, level_carries?, levels_carry?, Weighable, with_carried};

use crate::{preparing, soundness};
use reducers::tables;
use vectors::terms;

// ## Components

// Whether the degrees of the first s components are in range.
fn degrees_fit(state: &[u16], s: usize) -> bool
    requires { (state_length ≤ length state.now) × (s ≤ most_components) }
    ensures { result ≡ fits? most_degree (take s (drop degrees_start state.now)) }
{
    for j in 0..s {
        if words::MOST_DEGREE < state[words::DEGREES_START + j] {
            return false;
        }
    }
    true
}

// Where the degrees of level k's components stand: those of column k.
pub fn under_start(k: usize) -> usize
    requires { k ≤ all_levels }
    ensures { (result ≡ under_place k) × (result + most_vectors ≤ state_length) }
{
    if k == 0 {
        return words::DEGREES_START;
    }
    words::CARRIED_START + (k - 1) * words::MOST_VECTORS
}

// ## Vectors

// Whether the words of d are the degrees of r vectors, over those below.
fn vectors_carry(level: &[u16], ends: &[u16], r: usize, below: &[u16], n: usize, d: &[u16]) -> bool
    requires { (r ≤ length d.now) × Cut r level.now ends.now × (n ≤ length below.now) }
    ensures { result ≡ same_exponents? (take r d.now)
        (degrees_of (take n below.now) [] (cut_level r level.now ends.now)) }
{
    let mut from: usize = 0;
    for j in 0..r {
        if tables::degree_at(level, from, below, n) != words::wider(d[j]) {
            return false;
        }
        from = words::place(ends[j]);
    }
    true
}

// Whether level k's words are the degrees of its vectors.
fn level_carries(state: &[u16], k: usize) -> bool
    requires { (state_length ≤ length state.now) × (k < all_levels) × (count_at state.now k ≤ most_vectors) × (components_at state.now k ≤ most_vectors)
        × Cut (count_at state.now k) (rows_from state.now k) (ends_from state.now k) }
    ensures { result ≡ level_carries? state.now k }
{
    let r = soundness::count_of(state, k);
    let n = preparing::components_of(state, k);
    let b = under_start(k);
    let start = words::ROWS_START + k * words::LEVEL_LENGTH;
    let ends = words::ENDS_START + k * words::COUNTS_LENGTH;
    let d = words::CARRIED_START + k * words::MOST_VECTORS;
    vectors_carry(
        &state[start..],
        &state[ends..],
        r,
        &state[b..],
        n,
        &state[d..],
    )
}

// Levels 0 to h − 1.
fn levels_carry(state: &[u16], h: usize) -> bool
    requires { (state_length ≤ length state.now) × (h ≤ all_levels) × (get_or state.now 3 0 ≤ most_components) × T (levels_hold? state.now h) }
    ensures { result ≡ levels_carry? state.now h }
{
    for k in 0..h {
        if !level_carries(state, k) {
            return false;
        }
    }
    true
}

// ## The state

// Whether the degrees of a state with h sound levels are in range and those that its vectors carry.
pub fn hold(state: &[u16], h: usize) -> bool
    requires { (state_length ≤ length state.now) × (h ≤ all_levels) × (get_or state.now 3 0 ≤ most_components) × T (levels_hold? state.now h) }
    ensures { result ≡ (fits? most_degree (degrees_at document_01 state.now) and levels_carry? state.now h) }
{
    let s = words::place(state[3]);
    degrees_fit(state, s) && levels_carry(state, h)
}

// ## A level's degrees written

// The degrees of level k's vectors, over those that stand with the level below.
fn weigh(d: &mut [u16], state: &[u16], k: usize)
    requires { (most_vectors ≤ length d.old) × Weighable state.now k }
    ensures { take (count_at state.now k) d.new ≡ weighed_at state.now k }
{
    let r = soundness::count_of(state, k);
    let n = preparing::components_of(state, k);
    let b = under_start(k);
    let start = words::ROWS_START + k * words::LEVEL_LENGTH;
    let ends = words::ENDS_START + k * words::COUNTS_LENGTH;
    tables::fill_degrees(d, &state[start..], &state[ends..], r, &state[b..], n);
}

// The degrees that level k's vectors carry, written; all other words stay as they are.
pub fn carry(state: &mut [u16], k: usize)
    requires { Weighable state.old k }
    ensures { state.new ≡ with_carried state.old k }
{
    let mut d = [0u16; words::MOST_VECTORS];
    weigh(&mut d, state, k);
    let r = soundness::count_of(state, k);
    terms::copy(state, words::CARRIED_START + k * words::MOST_VECTORS, &d, r);
}
