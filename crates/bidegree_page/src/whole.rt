// The lines of bidegrees of a file printed into a buffer: what was read and accepted, 25, all levels, then the lines.
// Knows: crate definitions' Bidegrees and Program.
// A refusal is all that is printed; nothing is zeroed.
ghost use Rattle.std.specs.Prelude.{◌≡◌, ℕ, ◌≤◌, T, length, get_or};
ghost use Rattle.definitions.specs.Limits.{document_01};
ghost use Rattle.definitions.specs.Monomial.{fits?};
ghost use Rattle.definitions.specs.Bidegrees.{bidegree_lines, bidegrees_of, bidegrees as bidegrees_definition};
ghost use Rattle.definitions.specs.Places.{most_weight, state_length, value_length, bidegrees_length};
ghost use Rattle.level.specs.by_runs.Stages.{Base};
ghost use Rattle.listing.specs.whole.Listed.{Prints};
ghost use Rattle.listing.specs.whole.Paged.{LiftedPrints, AcceptedPrints};
ghost use Rattle.columns.specs.weights.Keys.{weights_of};

use crate::page;
use columns::mixed;
use level::all_levels;
use listing::{printing, reading};
use reader::problem;
use words::refusals::{Refusal, Refused};

// Levels are lifted as for the sheet.
fn print_lifted(
    out: &mut [u8],
    state: &mut [u16],
    work: &mut [u16],
    ws: [u16; words::WEIGHTS_LENGTH],
) -> usize
    requires { Base state.old 0 × (value_length ≤ length work.old) × (bidegrees_length ≤ length out.old) × T (fits? most_weight ws) }
    ensures { LiftedPrints (bidegree_lines (weights_of (get_or state.old 1 0) ws)) state.old out.old out.new result × (result ≤ bidegrees_length) }
{
    match all_levels::lift_levels(state, work) {
        Ok(()) => page::print_lines(out, state, ws),
        Err(refused) => printing::x_line(out, 0, refused),
    }
}

// 25 "here instead of 17, its place the first such element, when some element has terms of two bidegrees, after acceptance."
fn print_accepted(
    out: &mut [u8],
    state: &mut [u16],
    work: &mut [u16],
    ws: [u16; words::WEIGHTS_LENGTH],
) -> usize
    requires { Base state.old 0 × (get_or state.old 4 0 ≡ 1) × (value_length ≤ length work.old) × (bidegrees_length ≤ length out.old)
        × T (fits? most_weight ws) }
    ensures { AcceptedPrints (λ n. bidegrees_of document_01 n (weights_of (get_or state.old 1 0) ws)) state.old
        out.old out.new result × (result ≤ bidegrees_length) }
{
    match mixed::first_mixed_by(state, ws) {
        None => print_lifted(out, state, work, ws),
        Some(place) => {
            let refusal = Refusal::Bidegree;
            printing::x_line(out, 0, Refused { refusal, place })
        }
    }
}

// The lines of bidegrees of a file, in front of out. The weights are read from the file once more: no state holds them.
pub fn print(file: &[u8], state: &mut [u16], work: &mut [u16], out: &mut [u8]) -> usize
    requires { (state_length ≤ length state.old) × (value_length ≤ length work.old) × (bidegrees_length ≤ length out.old) }
    ensures { Prints (λ n. bidegrees_definition document_01 n file.now) out.old out.new 0 result
        × (result ≤ bidegrees_length) }
{
    match reading::begin(file, state, work, out) {
        Ok(()) => {
            let ws = problem::weights(file);
            print_accepted(out, state, work, ws)
        }
        Err(length) => length,
    }
}
