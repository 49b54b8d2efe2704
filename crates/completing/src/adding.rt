// One addition: the value where division stopped, made monic, as the file's last element.
// Knows: crate definitions' Completing.
// The buffer has room for a value's T lines behind the longest file, so that the result's length is tested when it stands there.
ghost use Rattle.std.specs.Prelude.{◌≡◌, ◌∷◌, [], ◌++◌, ◌+◌, ◌-◌, ◌*◌, ◌≤◌, ◌<◌, length, get_or, take};
ghost use Rattle.definitions.specs.Field.{inverse as inverse_definition};
ghost use Rattle.definitions.specs.Problem.{letter_E};
ghost use Rattle.definitions.specs.Sheet.{printed};
ghost use Rattle.definitions.specs.Written.{element_lines as element_lines_definition};
ghost use Rattle.definitions.specs.Completing.{monic};
ghost use Rattle.definitions.specs.Layout.{row_at, rows};
ghost use Rattle.definitions.specs.Places.{
  most_terms,
  most_rows,
  row_length,
  value_length,
  file_length,
  t_line_length,
  end_line_length,
  completed_length,
};
ghost use Rattle.pages.specs.bytes.Printing.{Printed};
ghost use Rattle.level.specs.by_runs.Stages.{Base};
ghost use Rattle.completing.specs.adding.Additions.{added_of, Short, heads_in, tests_at, added_over};

use crate::lines;
use pages::bytes;
use state::{soundness, writing};
use vectors::terms;
use words::refusals::{Refusal, Refused};

// Where the E line begins in a file of this size with so many T lines.
fn front(size: usize, count: usize) -> usize
    requires { count ≤ most_rows }
    ensures { (result ≡ size - length (printed letter_E (count ∷ []))) × (result ≤ size) }
{
    size.saturating_sub(bytes::width(count) + 3)
}

// What makes the value in the work area monic.
fn factor(state: &[u16], work: &[u16]) -> u16
    requires { Base state.now 0 × (row_length ≤ length work.now) }
    ensures { result ≡ inverse_definition (get_or state.now 0 0) (row_at work.now 0).0 }
{
    let t = terms::row(work, 0);
    field::inverse(t.coefficient, state[0])
}

// The T lines of the value, made monic.
fn value_lines(
    out: &mut [u8],
    at: usize,
    state: &[u16],
    work: &[u16],
    m: usize,
    element: u16,
) -> usize
    requires { Base state.now 0 × (value_length ≤ length work.now) × (m ≤ most_terms) × (at + m * t_line_length ≤ length out.old) }
    ensures { Printed out.old out.new at result (element_lines_definition (get_or state.now 1 0) element
        (monic (get_or state.now 0 0) (rows work.now 0 m))) × (result ≤ at + m * t_line_length) }
{
    let c = factor(state, work);
    let n = words::place(state[1]);
    lines::element_lines(out, at, work, m, n, element, c, state[0])
}

// .. and the E line behind them.
fn write(
    out: &mut [u8],
    at: usize,
    state: &[u16],
    work: &[u16],
    m: usize,
    element: u16,
    total: u16,
) -> usize
    requires { Base state.now 0 × (value_length ≤ length work.now) × (m ≤ most_terms)
        × (at + m * t_line_length + end_line_length ≤ length out.old) }
    ensures { Printed out.old out.new at result (element_lines_definition (get_or state.now 1 0) element
        (monic (get_or state.now 0 0) (rows work.now 0 m)) ++ printed letter_E (total ∷ []))
        × (result ≤ at + m * t_line_length + end_line_length) }
{
    let a = value_lines(out, at, state, work, m, element);
    lines::end_line(out, a, total)
}

// "1 at line 0 for a result too long for a problem file, 8 for a 2,049th T line": the result stands in front and ends here, with so many T lines; up to `at`
// it is as it was given, with `count` T lines.
fn test(out: &[u8], at: usize, end: usize, count: usize, total: usize) -> Result<usize, Refused>
    requires { (at ≤ end) × (end ≤ length out.now) × (at ≤ file_length) }
    ensures { (added_of result out.now ≡ tests_at (heads_in out.now at count) total (take end out.now)) × Short result }
{
    if words::FILE_LENGTH < end {
        return Err(Refused {
            refusal: Refusal::Shape,
            place: 0,
        });
    }
    if words::MOST_ROWS < total {
        let heads = lines::lines_in(out, at).saturating_sub(count);
        return Err(Refused {
            refusal: Refusal::Lines,
            place: heads + words::MOST_ROWS + 1,
        });
    }
    Ok(end)
}

// "adds the value shown, made monic, as the last element": the file in front has this size, the work area holds the value's m rows. The size of the file
// with an element more.
pub fn add(
    out: &mut [u8],
    size: usize,
    state: &[u16],
    work: &[u16],
    m: usize,
) -> Result<usize, Refused>
    requires { Base state.now 0 × (size ≤ file_length) × (value_length ≤ length work.now) × (m ≤ most_terms)
        × (completed_length ≤ length out.old) }
    ensures { (added_of result out.new ≡ added_over state.now (take size out.old) (rows work.now 0 m))
        × Short result }
{
    let r = soundness::count_of(state, 0);
    let most = words::place(words::MOST_ELEMENTS);
    if most <= r {
        return Err(Refused {
            refusal: Refusal::Elements,
            place: r + 1,
        });
    }
    let count = writing::end_of(state, 0, r);
    let at = front(size, count);
    let total = count + m;
    let end = write(out, at, state, work, m, (r + 1) as u16, total as u16);
    test(out, at, end, count, total)
}
