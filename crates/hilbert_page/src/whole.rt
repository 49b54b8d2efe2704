// The Hilbert function of a file printed into a buffer: what was read and accepted, all levels, then the lines.
// Knows: crate definitions' Hilbert and Program.
// A refusal is all that is printed; 17 is not tested; nothing is zeroed.
ghost use Rattle.std.specs.Prelude.{◌≡◌, ℕ, ◌≤◌, length};
ghost use Rattle.definitions.specs.Limits.{document_01};
ghost use Rattle.definitions.specs.Hilbert.{hilbert_lines, hilbert as hilbert_definition};
ghost use Rattle.definitions.specs.Places.{state_length, value_length, hilbert_length};
ghost use Rattle.level.specs.by_runs.Stages.{Base};
ghost use Rattle.listing.specs.whole.Listed.{Prints};
ghost use Rattle.listing.specs.whole.Paged.{LiftedPrints};

use crate::page;
use level::all_levels;
use listing::{printing, reading};

// Levels are lifted as for the sheet.
fn print_lifted(out: &mut [u8], state: &mut [u16], work: &mut [u16]) -> usize
    requires { Base state.old 0 × (value_length ≤ length work.old) × (hilbert_length ≤ length out.old) }
    ensures { LiftedPrints hilbert_lines state.old out.old out.new result × (result ≤ hilbert_length) }
{
    match all_levels::lift_levels(state, work) {
        Ok(()) => page::print_lines(out, state),
        Err(refused) => printing::x_line(out, 0, refused),
    }
}

// The Hilbert function of a file, in front of out.
pub fn print(file: &[u8], state: &mut [u16], work: &mut [u16], out: &mut [u8]) -> usize
    requires { (state_length ≤ length state.old) × (value_length ≤ length work.old) × (hilbert_length ≤ length out.old) }
    ensures { Prints (λ n. hilbert_definition document_01 n file.now) out.old out.new 0 result
        × (result ≤ hilbert_length) }
{
    match reading::begin(file, state, work, out) {
        Ok(()) => print_lifted(out, state, work),
        Err(length) => length,
    }
}
