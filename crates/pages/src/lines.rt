// The lines of a page: a label of six bytes, then eleven numbers of six bytes each, right-aligned, and the line's end.
// Knows: crate definitions' Pages.
// Each function answers where its bytes end.
ghost use Rattle.std.specs.Prelude.{◌≡◌, [], ◌∷◌, ◌++◌, ◌+◌, ◌*◌, ◌≤◌, ◌<◌, length};
ghost use Rattle.definitions.specs.Sheet.{decimal};
ghost use Rattle.definitions.specs.Pages.{
  right_aligned,
  cell as cell_definition,
  cells as cells_definition,
  row_label as row_label_definition,
  total_label as total_label_definition,
};
ghost use Rattle.definitions.specs.Places.{cell_length, page_columns, page_line_length, page_rows};
ghost use Rattle.pages.specs.bytes.Printing.{Printed};

use crate::bytes;

// "a dash for zero"
pub fn cell(out: &mut [u8], at: usize, v: u16) -> usize
    requires { at + cell_length ≤ length out.old }
    ensures { Printed out.old out.new at result (cell_definition v) × (result ≡ at + cell_length) }
{
    if v == 0 {
        let a = bytes::spaces(out, at, words::CELL_LENGTH - 1);
        return bytes::byte(out, a, b'-');
    }
    let x = usize::from(v);
    let w = bytes::width(x);
    let a = bytes::spaces(out, at, words::CELL_LENGTH - w);
    bytes::number(out, a, x)
}

// The numbers of a line, and its end.
fn cells(out: &mut [u8], at: usize, counts: [u16; words::PAGE_COLUMNS]) -> usize
    requires { at + page_columns * cell_length < length out.old }
    ensures { Printed out.old out.new at result (cells_definition counts) × (result ≡ at + page_columns * cell_length + 1) }
{
    let mut a = at;
    for count in &counts {
        a = cell(out, a, *count);
    }
    bytes::byte(out, a, b'\n')
}

// The label of row y.
fn label(out: &mut [u8], at: usize, y: usize) -> usize
    requires { (at + cell_length ≤ length out.old) × (y ≤ 65535) }
    ensures { Printed out.old out.new at result (right_aligned (decimal y ++ 58 ∷ [])) × (result ≡ at + cell_length) }
{
    let w = bytes::width(y);
    let a = bytes::spaces(out, at, words::CELL_LENGTH - 1 - w);
    let b = bytes::number(out, a, y);
    bytes::byte(out, b, b':')
}

// The label of row −y.
fn negative_label(out: &mut [u8], at: usize, y: usize) -> usize
    requires { (at + cell_length ≤ length out.old) × (y ≤ 10) }
    ensures { Printed out.old out.new at result (right_aligned (45 ∷ decimal y ++ 58 ∷ [])) × (result ≡ at + cell_length) }
{
    let w = bytes::width(y);
    let a = bytes::spaces(out, at, words::CELL_LENGTH - 2 - w);
    let b = bytes::byte(out, a, b'-');
    let c = bytes::number(out, b, y);
    bytes::byte(out, c, b':')
}

// "labelled by its number and a colon": row r, counted from −10.
pub fn row_label(out: &mut [u8], at: usize, r: usize) -> usize
    requires { (at + cell_length ≤ length out.old) × (r < page_rows) }
    ensures { Printed out.old out.new at result (row_label_definition r) × (result ≡ at + cell_length) }
{
    if r < words::ROW_SHIFT {
        return negative_label(out, at, words::ROW_SHIFT - r);
    }
    label(out, at, r - words::ROW_SHIFT)
}

// The line of row r, with these numbers.
pub fn row_line(out: &mut [u8], at: usize, r: usize, counts: [u16; words::PAGE_COLUMNS]) -> usize
    requires { (at + page_line_length ≤ length out.old) × (r < page_rows) }
    ensures { Printed out.old out.new at result (row_label_definition r ++ cells_definition counts)
        × (result ≡ at + page_line_length) }
{
    let a = row_label(out, at, r);
    cells(out, a, counts)
}

// Six bytes.
fn text(out: &mut [u8], at: usize, t: &[u8; words::CELL_LENGTH]) -> usize
    requires { at + cell_length ≤ length out.old }
    ensures { Printed out.old out.new at result t.now × (result ≡ at + cell_length) }
{
    let mut a = at;
    for x in t {
        a = bytes::byte(out, a, *x);
    }
    a
}

// "and a last row `total`", with these numbers.
pub fn total_line(out: &mut [u8], at: usize, counts: [u16; words::PAGE_COLUMNS]) -> usize
    requires { at + page_line_length ≤ length out.old }
    ensures { Printed out.old out.new at result (total_label_definition ++ cells_definition counts)
        × (result ≡ at + page_line_length) }
{
    let a = text(out, at, b" total");
    cells(out, a, counts)
}
