// The Betti page of a file printed into a buffer: what was read and accepted, 17, all levels, then the page.
// Knows: crate definitions' Betti and Program.
// A refusal is all that is printed; nothing is zeroed.
ghost use Rattle.std.specs.Prelude.{◌≡◌, ℕ, ◌≤◌, length, get_or};
ghost use Rattle.definitions.specs.Limits.{document_01};
ghost use Rattle.definitions.specs.Betti.{betti_page, betti_of, betti as betti_definition};
ghost use Rattle.definitions.specs.Places.{state_length, value_length, page_length};
ghost use Rattle.level.specs.by_runs.Stages.{Base};
ghost use Rattle.listing.specs.whole.Listed.{Prints};
ghost use Rattle.listing.specs.whole.Paged.{LiftedPrints, AcceptedPrints};

use crate::page;
use columns::mixed;
use level::all_levels;
use listing::{printing, reading};
use words::refusals::{Refusal, Refused};

// "Levels are lifted as for the sheet."
fn print_lifted(out: &mut [u8], state: &mut [u16], work: &mut [u16]) -> usize
    requires { Base state.old 0 × (value_length ≤ length work.old) × (page_length ≤ length out.old) }
    ensures { LiftedPrints betti_page state.old out.old out.new result × (result ≤ page_length) }
{
    match all_levels::lift_levels(state, work) {
        Ok(()) => page::print_page(out, state),
        Err(refused) => printing::x_line(out, 0, refused),
    }
}

// "17, with the first such element as place, when some element has terms of two degrees, tested after acceptance."
fn print_accepted(out: &mut [u8], state: &mut [u16], work: &mut [u16]) -> usize
    requires { Base state.old 0 × (get_or state.old 4 0 ≡ 1) × (value_length ≤ length work.old) × (page_length ≤ length out.old) }
    ensures { AcceptedPrints (betti_of document_01) state.old out.old out.new result × (result ≤ page_length) }
{
    match mixed::first_mixed(state) {
        None => print_lifted(out, state, work),
        Some(place) => {
            let refusal = Refusal::Degree;
            printing::x_line(out, 0, Refused { refusal, place })
        }
    }
}

// The Betti page of a file, in front of out.
pub fn print(file: &[u8], state: &mut [u16], work: &mut [u16], out: &mut [u8]) -> usize
    requires { (state_length ≤ length state.old) × (value_length ≤ length work.old) × (page_length ≤ length out.old) }
    ensures { Prints (λ n. betti_definition document_01 n file.now) out.old out.new 0 result × (result ≤ page_length) }
{
    match reading::begin(file, state, work, out) {
        Ok(()) => print_accepted(out, state, work),
        Err(length) => length,
    }
}
