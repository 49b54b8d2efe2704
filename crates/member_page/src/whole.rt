// The lines of an input printed into a buffer: what was read and accepted, the vector of the V lines, its division.
// Knows: crate definitions' Membership and Program.
// A refusal is all that is printed; nothing is zeroed.
ghost use Rattle.std.specs.Prelude.{◌≡◌, ℕ, ◌≤◌, T, length, get_or};
ghost use Rattle.definitions.specs.Limits.{document_01};
ghost use Rattle.definitions.specs.After.{file_end};
ghost use Rattle.definitions.specs.Membership.{membership_of, membership};
ghost use Rattle.definitions.specs.Layout.{rows};
ghost use Rattle.definitions.specs.Places.{most_terms, file_length, state_length, value_length, member_length};
ghost use Rattle.ending.specs.Good.{good?};
ghost use Rattle.level.specs.by_runs.Stages.{Base};
ghost use Rattle.listing.specs.whole.Listed.{Prints};
ghost use Rattle.listing.specs.whole.Paged.{AcceptedPrints};
ghost use Rattle.member_page.specs.whole.Printing.{VectorPrints};

use crate::{brought, page};
use dividing::over;
use listing::{printing, reading};
use words::parameters::Parameters;
use words::refusals::{Refusal, Refused};

// The parameters that a state holds.
fn parameters_in(state: &[u16]) -> Parameters
    requires { state_length ≤ length state.now }
    ensures { (result.p ≡ get_or state.now 0 0) × (result.n ≡ get_or state.now 1 0) × (result.code ≡ get_or state.now 2 0)
        × (result.s ≡ get_or state.now 3 0) }
{
    Parameters {
        p: state[0],
        n: state[1],
        code: state[2],
        s: state[3],
    }
}

// The first n rows of work, divided by the elements of a state.
fn print_division(out: &mut [u8], state: &[u16], work: &mut [u16], n: usize) -> usize
    requires { Base state.now 0 × (get_or state.now 4 0 ≡ 1) × (value_length ≤ length work.old) × (n ≤ most_terms)
        × T (good? (rows work.old 0 n)) × (member_length ≤ length out.old) }
    ensures { VectorPrints state.now (rows work.old 0 n) out.old out.new result × (result ≤ member_length) }
{
    let mut quotients = [0u16; words::VECTOR_LENGTH];
    let mut remainder = [0u16; words::VALUE_LENGTH];
    match over::divide_vector(work, n, &mut quotients, &mut remainder, state) {
        Ok(divided) => {
            let m = words::place(state[1]);
            let (v, r) = (divided.quotients, divided.remainder);
            page::print_lines(out, &quotients, v, &remainder, r, m)
        }
        Err(refusal) => printing::x_line(out, 0, Refused { refusal, place: 0 }),
    }
}

// The lines behind a file that was accepted, the first behind byte `end`.
fn print_vector(input: &[u8], end: usize, state: &[u16], work: &mut [u16], out: &mut [u8]) -> usize
    requires { Base state.now 0 × (get_or state.now 4 0 ≡ 1) × (end ≡ file_end input.now) × (end ≤ length input.now) × (end ≤ file_length)
        × (value_length ≤ length work.old) × (member_length ≤ length out.old) }
    ensures { AcceptedPrints (λ n. membership_of document_01 n input.now) state.now out.old out.new result
        × (result ≤ member_length) }
{
    let q = parameters_in(state);
    let first = after::lines_in(&input[..end]) + 1;
    match brought::v_lines(input, end, first, q, work) {
        Ok(n) => print_division(out, state, work, n),
        Err(place) => {
            let refused = Refused {
                refusal: Refusal::VectorLine,
                place,
            };
            printing::x_line(out, 0, refused)
        }
    }
}

// The lines of an input, in front of out.
pub fn print(input: &[u8], state: &mut [u16], work: &mut [u16], out: &mut [u8]) -> usize
    requires { (state_length ≤ length state.old) × (value_length ≤ length work.old) × (member_length ≤ length out.old) }
    ensures { Prints (λ n. membership document_01 n input.now) out.old out.new 0 result × (result ≤ member_length) }
{
    let end = after::file_end(input);
    match reading::begin(&input[..end], state, work, out) {
        Ok(()) => print_vector(input, end, state, work, out),
        Err(length) => length,
    }
}
