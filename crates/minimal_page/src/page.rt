// The page of a state's minimal numbers: a line for each row of the Betti page, and that of the totals.
// Knows: crate definitions' Minimal and Pages.
// Columns are marked once; each row is counted anew, and its numbers are added to the totals.
ghost use Rattle.std.specs.Prelude.{◌≤◌, T, length};
ghost use Rattle.definitions.specs.Limits.{document_01};
ghost use Rattle.definitions.specs.Layout.{decode, holds_state?};
ghost use Rattle.definitions.specs.Minimal.{minimal_page};
ghost use Rattle.definitions.specs.Places.{state_length, page_length};
ghost use Rattle.pages.specs.bytes.Printing.{Printed};
ghost use Rattle.minimal_page.specs.numbers.Marks.{Marks};
ghost use Rattle.minimal_page.specs.page.Lines.{RowsOf};

use crate::numbers;
use columns::counting;
use constants::marking;
use pages::lines;

// The lines of rows low to high, and that of their totals.
fn print_lines(out: &mut [u8], state: &[u16], marks: &[u16], low: usize, high: usize) -> usize
    requires { Marks state.now marks.now × RowsOf state.now low high × (page_length ≤ length out.old) }
    ensures { Printed out.old out.new 0 result (minimal_page (decode document_01 state.now)) × (result ≤ page_length) }
{
    let mut totals = [0u16; words::PAGE_COLUMNS];
    let mut at: usize = 0;
    for r in low..high + 1 {
        let row = numbers::row_numbers(state, marks, r);
        at = lines::row_line(out, at, r, row);
        // By a name of its own: a call's result is not laid in an array that the call takes.
        let sums = numbers::added(totals, row);
        totals = sums;
    }
    lines::total_line(out, at, totals)
}

// "prints the numbers as a page in the same layout and rows"
pub fn print_page(out: &mut [u8], state: &[u16]) -> usize
    requires { (state_length ≤ length state.now) × T (holds_state? document_01 state.now) × (page_length ≤ length out.old) }
    ensures { Printed out.old out.new 0 result (minimal_page (decode document_01 state.now)) × (result ≤ page_length) }
{
    let mut marks = [0u16; words::MARKS_LENGTH];
    marking::mark_columns(state, &mut marks);
    let rows = counting::rows_in_use(state);
    print_lines(out, state, &marks, rows.low, rows.high)
}
