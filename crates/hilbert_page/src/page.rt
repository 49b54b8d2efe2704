// The lines of the Hilbert function of a state's words: one for each degree from 0 to 32.
// Knows: crate definitions' Hilbert.
// Each value is summed anew: eleven columns of at most 128 words.
ghost use Rattle.std.specs.Prelude.{◌≡◌, ◌+◌, ◌≤◌, ◌<◌, T, length, get_or};
ghost use Rattle.definitions.specs.Limits.{document_01};
ghost use Rattle.definitions.specs.Layout.{decode, holds_state?};
ghost use Rattle.definitions.specs.Hilbert.{hilbert_lines};
ghost use Rattle.definitions.specs.Places.{state_length, pair_line_length, hilbert_degrees, hilbert_length};
ghost use Rattle.pages.specs.bytes.Printing.{Printed};
ghost use Rattle.hilbert_page.specs.page.Lines.{line_of};

use columns::values;
use listing::printing;

// `H,degree,value`
fn print_line(out: &mut [u8], at: usize, state: &[u16], n: usize, d: usize) -> usize
    requires { (state_length ≤ length state.now) × T (holds_state? document_01 state.now) × (n ≡ get_or state.now 1 0)
        × (d < hilbert_degrees) × (at + pair_line_length ≤ length out.old) }
    ensures { Printed out.old out.new at result (line_of state.now d) × (result ≤ at + pair_line_length) }
{
    let value = values::hilbert_value(state, n, d);
    printing::pair_line(out, at, b'H', d as u16, value as usize)
}

// "For degrees 0 to 32"
pub fn print_lines(out: &mut [u8], state: &[u16]) -> usize
    requires { (state_length ≤ length state.now) × T (holds_state? document_01 state.now) × (hilbert_length ≤ length out.old) }
    ensures { Printed out.old out.new 0 result (hilbert_lines (decode document_01 state.now))
        × (result ≤ hilbert_length) }
{
    let n = words::place(state[1]);
    let mut at: usize = 0;
    for d in 0..words::HILBERT_DEGREES {
        at = print_line(out, at, state, n, d);
    }
    at
}
