// The sheet of a file printed into a buffer: what was read and accepted, all levels, then their lines.
// Knows: crate definitions' Sheet.
// All levels are lifted in the state, then printed; nothing is zeroed.
ghost use Rattle.std.specs.Prelude.{◌≡◌, ℕ, ◌+◌, ◌≤◌, ◌<◌, length, get_or};
ghost use Rattle.definitions.specs.Limits.{document_01};
ghost use Rattle.definitions.specs.Sheet.{sheet as sheet_definition};
ghost use Rattle.definitions.specs.Places.{state_length, value_length, level_lines_length, all_lines_length, sheet_length};
ghost use Rattle.level.specs.by_runs.Stages.{Base};
ghost use Rattle.pages.specs.bytes.Printing.{Printed};
ghost use Rattle.listing.specs.whole.Listed.{Prints, lines_of, all_lines_of, levels_sheet};

use crate::{printing, reading};
use level::all_levels;
use state::soundness;

// Level k of a state.
fn print_level(out: &mut [u8], at: usize, state: &[u16], k: usize) -> usize
    requires { Base state.now k × (at + level_lines_length ≤ length out.old) }
    ensures { Printed out.old out.new at result (lines_of state.now k) × (result ≤ at + level_lines_length) }
{
    let count = soundness::count_of(state, k);
    let n = words::place(state[1]);
    let start = words::ROWS_START + k * words::LEVEL_LENGTH;
    let ends = words::ENDS_START + k * words::COUNTS_LENGTH;
    printing::level_lines(out, at, &state[start..], &state[ends..], count, n, k as u16)
}

// The levels of a state from level 1 on.
fn print_levels(out: &mut [u8], state: &[u16]) -> usize
    requires { Base state.now 0 × (all_lines_length ≤ length out.old) }
    ensures { Printed out.old out.new 0 result (all_lines_of state.now) × (result ≤ all_lines_length) }
{
    let height = words::place(state[4]);
    let mut at: usize = 0;
    for k in 1..height {
        at = print_level(out, at, state, k);
    }
    at
}

// "Levels 1 on, hybrid, pick code 2, until a count is 0 or level 9 is printed"; "A refusal prints, after finished levels, `X,number,place`".
fn print_lifted(out: &mut [u8], state: &mut [u16], work: &mut [u16]) -> usize
    requires { Base state.old 0 × (get_or state.old 4 0 ≡ 1) × (value_length ≤ length work.old) × (sheet_length ≤ length out.old) }
    ensures { Prints (λ n. levels_sheet n state.old) out.old out.new 0 result × (result ≤ sheet_length) }
{
    let lifted = all_levels::lift_levels(state, work);
    let at = print_levels(out, state);
    match lifted {
        Ok(()) => at,
        Err(refused) => printing::x_line(out, at, refused),
    }
}

// The sheet of a file, in front of out.
pub fn print(file: &[u8], state: &mut [u16], work: &mut [u16], out: &mut [u8]) -> usize
    requires { (state_length ≤ length state.old) × (value_length ≤ length work.old) × (sheet_length ≤ length out.old) }
    ensures { Prints (λ n. sheet_definition document_01 n file.now) out.old out.new 0 result × (result ≤ sheet_length) }
{
    match reading::begin(file, state, work, out) {
        Ok(()) => print_lifted(out, state, work),
        Err(length) => length,
    }
}
