// The lines of an input printed into a buffer: what was read and accepted, the L line, the levels below, the log.
// Knows: crate definitions' Replay and Program.
// A refusal is all that is printed; nothing is zeroed.
ghost use Rattle.std.specs.Prelude.{◌≡◌, ◌-◌, ◌≤◌, length, get_or, drop};
ghost use Rattle.definitions.specs.Limits.{document_01};
ghost use Rattle.definitions.specs.After.{file_end, first_after};
ghost use Rattle.definitions.specs.Problem.{lines};
ghost use Rattle.definitions.specs.Replay.{replay_over, replay_level, replay_of, replay};
ghost use Rattle.definitions.specs.Places.{most_picks};
ghost use Rattle.definitions.specs.Places.{most_levels, file_length, read_length, state_length, value_length, replay_length};
ghost use Rattle.level.specs.by_runs.Stages.{Base};
ghost use Rattle.listing.specs.whole.Listed.{Prints};
ghost use Rattle.listing.specs.whole.Paged.{AcceptedPrints};

use crate::levels;
use listing::{printing, reading};
use reader::fields;
use replaying::over;
use words::refusals::{Refusal, Refused};

// Vector v of level k over a state with the levels below it, by the lines from a position on.
fn print_vector(
    out: &mut [u8],
    input: &[u8],
    from: usize,
    place: usize,
    state: &[u16],
    work: &mut [u16],
    k: u16,
    v: u16,
) -> usize
    requires { (1 ≤ k) × (k ≤ most_levels) × Base state.now (k - 1) × (get_or state.now 4 0 ≡ k) × (place ≤ read_length)
        × (value_length ≤ length work.old) × (replay_length ≤ length out.old) }
    ensures { AcceptedPrints (λ n. replay_over document_01 most_picks place k v (lines (drop from input.now))) state.now
        out.old out.new result × (result ≤ replay_length) }
{
    let mut vector = [0u16; words::VECTOR_LENGTH];
    let j = words::place(k) - 1;
    match over::replay_vector(
        work,
        &mut vector,
        input,
        from,
        place,
        state,
        j,
        words::place(v),
    ) {
        Ok(u) => {
            let n = words::place(state[1]);
            printing::s_lines(out, 0, &vector, 0, u, n, k, v)
        }
        Err(refused) => printing::x_line(out, 0, refused),
    }
}

// Level k: 12 where there is none, then the levels below it.
fn print_level(
    out: &mut [u8],
    input: &[u8],
    from: usize,
    place: usize,
    state: &mut [u16],
    work: &mut [u16],
    k: u16,
    v: u16,
) -> usize
    requires { Base state.old 0 × (get_or state.old 4 0 ≡ 1) × (place ≤ read_length) × (value_length ≤ length work.old)
        × (replay_length ≤ length out.old) }
    ensures { AcceptedPrints (λ n. replay_level document_01 n most_picks place k v (lines (drop from input.now))) state.old
        out.old out.new result × (result ≤ replay_length) }
{
    let level = words::place(k);
    if level == 0 || words::MOST_LEVELS < level {
        let refused = Refused {
            refusal: Refusal::Index,
            place,
        };
        return printing::x_line(out, 0, refused);
    }
    match levels::lift_below(state, work, level) {
        Ok(()) => print_vector(out, input, from, place, state, work, k, v),
        Err(refused) => printing::x_line(out, 0, refused),
    }
}

// The lines behind a file that was accepted, the first behind byte `end`.
fn print_log(input: &[u8], end: usize, state: &mut [u16], work: &mut [u16], out: &mut [u8]) -> usize
    requires { Base state.old 0 × (get_or state.old 4 0 ≡ 1) × (end ≡ file_end input.now) × (end ≤ length input.now) × (end ≤ file_length)
        × (value_length ≤ length work.old) × (replay_length ≤ length out.old) }
    ensures { AcceptedPrints (λ n. replay_of document_01 n most_picks input.now) state.old out.old out.new result
        × (result ≤ replay_length) }
{
    let first = after::lines_in(&input[..end]) + 1;
    let Some(line) = fields::line_at(input, end, b'L', 2) else {
        let refused = Refused {
            refusal: Refusal::LogLine,
            place: first,
        };
        return printing::x_line(out, 0, refused);
    };
    let k = line.numbers[0];
    let v = line.numbers[1];
    print_level(out, input, line.next, first, state, work, k, v)
}

// The lines of an input, in front of out.
pub fn print(input: &[u8], state: &mut [u16], work: &mut [u16], out: &mut [u8]) -> usize
    requires { (state_length ≤ length state.old) × (value_length ≤ length work.old) × (replay_length ≤ length out.old) }
    ensures { Prints (λ n. replay document_01 n input.now) out.old out.new 0 result × (result ≤ replay_length) }
{
    let end = after::file_end(input);
    match reading::begin(&input[..end], state, work, out) {
        Ok(()) => print_log(input, end, state, work, out),
        Err(length) => length,
    }
}
