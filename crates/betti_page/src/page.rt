// The Betti page of a state's words: a line for each row in use, and that of the totals.
// Knows: crate definitions' Betti and Pages.
// Each row is counted anew: eleven columns of at most 128 words.
ghost use Rattle.std.specs.Prelude.{◌≡◌, suc, ◌-◌, ◌*◌, ◌≤◌, ◌<◌, T, length};
ghost use Rattle.definitions.specs.Limits.{document_01};
ghost use Rattle.definitions.specs.Layout.{decode, holds_state?};
ghost use Rattle.definitions.specs.Betti.{betti_page};
ghost use Rattle.definitions.specs.Places.{state_length, page_line_length, page_rows, page_length};
ghost use Rattle.pages.specs.bytes.Printing.{Printed};
ghost use Rattle.betti_page.specs.page.Rows.{lines_from};

use columns::counting;
use pages::lines;

// The lines of rows low to high.
fn print_rows(out: &mut [u8], state: &[u16], low: usize, high: usize) -> usize
    requires { (state_length ≤ length state.now) × T (holds_state? document_01 state.now) × (low ≤ high) × (high < page_rows)
        × (page_length ≤ length out.old) }
    ensures { Printed out.old out.new 0 result (lines_from state.now low (suc high - low))
        × (result ≡ (suc high - low) * page_line_length) }
{
    let mut at: usize = 0;
    for r in low..high + 1 {
        at = lines::row_line(out, at, r, counting::row_counts(state, r));
    }
    at
}

// "Every row from the smallest to the largest in use is printed, .., and a last row `total`."
pub fn print_page(out: &mut [u8], state: &[u16]) -> usize
    requires { (state_length ≤ length state.now) × T (holds_state? document_01 state.now) × (page_length ≤ length out.old) }
    ensures { Printed out.old out.new 0 result (betti_page (decode document_01 state.now)) × (result ≤ page_length) }
{
    let rows = counting::rows_in_use(state);
    let at = print_rows(out, state, rows.low, rows.high);
    lines::total_line(out, at, counting::totals(state))
}
