// The V lines after a problem file, one by one, as rows of a lent slice.
// Knows: crate definitions' Membership, tests of V lines.
// The first bad line ends it, however many bytes follow.
ghost use Rattle.std.specs.Prelude.{◌≡◌, [], ◌∷◌, ◌+◌, ◌≤◌, length, take, drop};
ghost use Rattle.definitions.specs.Limits.{document_01};
ghost use Rattle.definitions.specs.Problem.{lines as lines_definition};
ghost use Rattle.definitions.specs.Membership.{v_lines as v_lines_definition};
ghost use Rattle.definitions.specs.Places.{read_length, value_length};
ghost use Rattle.words.specs.parameters.Values.{parameters_of};
ghost use Rattle.reader.specs.fields.Scanning.{line_as};
ghost use Rattle.member_page.specs.brought.Lines.{fits?, v_first, brought_as, Few};

use reader::fields::Line;
use reader::{fields, lines};
use vectors::terms;
use words::parameters::Parameters;

// The numbers of a V line as those of a T line, where the element stands first.
fn with_element(v: [u16; 16]) -> [u16; 16]
    ensures { result ≡ 0 ∷ take 15 v }
{
    [
        0, v[0], v[1], v[2], v[3], v[4], v[5], v[6], v[7], v[8], v[9], v[10], v[11], v[12], v[13],
        v[14],
    ]
}

// Whether the term is in range, below the one before it and not the 513th.
fn fits(q: Parameters, count: usize, before: [u16; 16], w: [u16; 16]) -> bool
    ensures { result ≡ fits? (parameters_of q) count before w }
{
    count < words::MOST_TERMS
        && lines::term_in_range(q, w)
        && (count == 0 || lines::above(q.code, before, w))
}

// The V line at a position, after so many terms; its numbers as those of a T line.
fn v_line(file: &[u8], at: usize, q: Parameters, count: usize, before: [u16; 16]) -> Option<Line>
    requires { q.n ≤ 8 }
    ensures { line_as result file.now ≡ v_first (parameters_of q) count before (drop at file.now) }
{
    let line = fields::line_at(file, at, b'V', 2 + usize::from(q.n))?;
    let numbers = with_element(line.numbers);
    if !fits(q, count, before, numbers) {
        return None;
    }
    Some(Line {
        next: line.next,
        numbers,
    })
}

// The V lines from a position to the end, the first with this number, into rows: how many terms they bring, or the number of the first bad line.
pub fn v_lines(
    file: &[u8],
    from: usize,
    first: usize,
    q: Parameters,
    value: &mut [u16],
) -> Result<usize, usize>
    requires { (q.n ≤ 8) × (first ≤ read_length) × (value_length ≤ length value.old) }
    ensures { (brought_as result value.new
        ≡ v_lines_definition document_01 (parameters_of q) first [] (lines_definition (drop from file.now))) × Few result }
{
    let mut at = from;
    let mut count: usize = 0;
    let mut before = [0u16; 16];
    // A while: the position jumps by a line.
    while at < file.len() {
        let line = v_line(file, at, q, count, before).ok_or(first + count)?;
        let t = lines::term_said(line.numbers);
        terms::put(value, count, t);
        before = line.numbers;
        at = line.next;
        count += 1;
    }
    Ok(count)
}
