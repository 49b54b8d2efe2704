// The minimal Betti numbers of a file printed into a buffer: what was read and accepted, 17, all levels, 20, then the page.
// Knows: crate definitions' Minimal and Program.
// A refusal is all that is printed; nothing is zeroed.
ghost use Rattle.std.specs.Prelude.{◌≡◌, ◌≤◌, T, length, get_or};
ghost use Rattle.definitions.specs.Limits.{document_01};
ghost use Rattle.definitions.specs.Layout.{holds_state?};
ghost use Rattle.definitions.specs.Minimal.{minimal_of, minimal as minimal_definition};
ghost use Rattle.definitions.specs.Places.{state_length, value_length, page_length};
ghost use Rattle.level.specs.by_runs.Stages.{Base};
ghost use Rattle.listing.specs.whole.Listed.{Prints};
ghost use Rattle.listing.specs.whole.Paged.{AcceptedPrints};
ghost use Rattle.minimal_page.specs.whole.Tested.{page_of, lifted_page};

use crate::page;
use columns::{counting, mixed};
use level::all_levels;
use listing::{printing, reading};
use words::refusals::{Refusal, Refused};

// "20 (place 9) when level 9 is not empty, tested after all lifting": its vectors are the last column.
fn print_tested(out: &mut [u8], state: &[u16]) -> usize
    requires { (state_length ≤ length state.now) × T (holds_state? document_01 state.now) × (page_length ≤ length out.old) }
    ensures { AcceptedPrints (λ n. page_of) state.now out.old out.new result × (result ≤ page_length) }
{
    let count = counting::column_length(state, words::MOST_LEVELS + 1);
    if count == 0 {
        return page::print_page(out, state);
    }
    let refusal = Refusal::LevelNine;
    let place = words::MOST_LEVELS;
    printing::x_line(out, 0, Refused { refusal, place })
}

// Levels are lifted as for the sheet.
fn print_lifted(out: &mut [u8], state: &mut [u16], work: &mut [u16]) -> usize
    requires { Base state.old 0 × (value_length ≤ length work.old) × (page_length ≤ length out.old) }
    ensures { AcceptedPrints lifted_page state.old out.old out.new result × (result ≤ page_length) }
{
    match all_levels::lift_levels(state, work) {
        Ok(()) => print_tested(out, state),
        Err(refused) => printing::x_line(out, 0, refused),
    }
}

// "17 applies as before."
fn print_accepted(out: &mut [u8], state: &mut [u16], work: &mut [u16]) -> usize
    requires { Base state.old 0 × (get_or state.old 4 0 ≡ 1) × (value_length ≤ length work.old) × (page_length ≤ length out.old) }
    ensures { AcceptedPrints (minimal_of document_01) state.old out.old out.new result × (result ≤ page_length) }
{
    match mixed::first_mixed(state) {
        None => print_lifted(out, state, work),
        Some(place) => {
            let refusal = Refusal::Degree;
            printing::x_line(out, 0, Refused { refusal, place })
        }
    }
}

// The minimal Betti numbers of a file, in front of out.
pub fn print(file: &[u8], state: &mut [u16], work: &mut [u16], out: &mut [u8]) -> usize
    requires { (state_length ≤ length state.old) × (value_length ≤ length work.old) × (page_length ≤ length out.old) }
    ensures { Prints (λ n. minimal_definition document_01 n file.now) out.old out.new 0 result
        × (result ≤ page_length) }
{
    match reading::begin(file, state, work, out) {
        Ok(()) => print_accepted(out, state, work),
        Err(length) => length,
    }
}
