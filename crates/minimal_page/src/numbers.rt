// The minimal numbers of a state: each count less the ranks of the constants that leave and enter its column, which are numbers of marks.
// Knows: crate definitions' Minimal, crate ranks' Blocks.
// A column's marks are those of the rows that leave it, so the next column's are those that enter it. Marks are added up, whatever they are.
ghost use Rattle.std.specs.Prelude.{◌≡◌, ◌*◌, ◌≤◌, ◌<◌, length, take};
ghost use Rattle.definitions.specs.Limits.{document_01};
ghost use Rattle.definitions.specs.Lists.{map, sum};
ghost use Rattle.definitions.specs.Layout.{decode};
ghost use Rattle.definitions.specs.Pages.{all_columns};
ghost use Rattle.definitions.specs.Minimal.{of_degree, minimal_number as number_definition};
ghost use Rattle.definitions.specs.Places.{most_vectors, page_columns, page_rows};
ghost use Rattle.ranks.specs.Blocks.{marked as marked_definition};
ghost use Rattle.columns.specs.counting.Columns.{columns_of};
ghost use Rattle.minimal_page.specs.numbers.Marks.{Marks, Fit, Added};

use columns::counting;

// ## Marks

// The marks of those whose degree is x, less the shift of rows.
fn count_marked(ds: &[u16], marks: &[u16], x: usize) -> usize
    requires { (length ds.now ≤ length marks.now) × (length ds.now ≤ most_vectors) }
    ensures { (result ≡ sum (of_degree x ds.now (take (length ds.now) marks.now))) × (result ≤ most_vectors * 65535) }
{
    let mut k: usize = 0;
    for i in 0..ds.len() {
        if words::place(ds[i]) + words::ROW_SHIFT == x {
            k += words::place(marks[i]);
        }
    }
    k
}

// .. of column c of a state; past the last column there is none.
fn marked(state: &[u16], marks: &[u16], t: usize, c: usize) -> usize
    requires { Marks state.now marks.now × (c ≤ page_columns) }
    ensures { (result ≡ marked_definition (decode document_01 state.now) (columns_of state.now) t c)
        × (result ≤ most_vectors * 65535) }
{
    if c == words::PAGE_COLUMNS {
        return 0;
    }
    count_marked(
        counting::column(state, c),
        &marks[c * words::MOST_VECTORS..],
        t,
    )
}

// ## Numbers

// "the count less the rank of the matrix leaving that column and less the rank of the one entering it"
fn minimal_number(state: &[u16], marks: &[u16], r: usize, c: usize) -> u16
    requires { Marks state.now marks.now × (c < page_columns) × (r < page_rows) }
    ensures { result ≡ number_definition (decode document_01 state.now) (columns_of state.now) r c }
{
    let count = counting::betti_count(state, r, c);
    let t = r + c;
    let leaving = marked(state, marks, t, c);
    let entering = marked(state, marks, t, c + 1);
    words::place(count).saturating_sub(leaving + entering) as u16
}

// The numbers of row r.
pub fn row_numbers(state: &[u16], marks: &[u16], r: usize) -> [u16; words::PAGE_COLUMNS]
    requires { Marks state.now marks.now × (r < page_rows) }
    ensures { result ≡ map (number_definition (decode document_01 state.now) (columns_of state.now) r) all_columns }
{
    let mut numbers = [0u16; words::PAGE_COLUMNS];
    for c in 0..words::PAGE_COLUMNS {
        numbers[c] = minimal_number(state, marks, r, c);
    }
    numbers
}

// The totals with a row's numbers.
pub fn added(
    totals: [u16; words::PAGE_COLUMNS],
    row: [u16; words::PAGE_COLUMNS],
) -> [u16; words::PAGE_COLUMNS]
    requires { Fit totals row }
    ensures { Added totals row result }
{
    let mut sums = [0u16; words::PAGE_COLUMNS];
    for c in 0..words::PAGE_COLUMNS {
        sums[c] = totals[c] + row[c];
    }
    sums
}
