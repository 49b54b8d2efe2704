// The lines of a division: quotients, remainder, whether the vector is a member.
// Knows: crate definitions' Membership.
// Quotients and remainder are rows of lent slices, as they are to be printed.
ghost use Rattle.std.specs.Prelude.{◌≡◌, [], ◌∷◌, ◌+◌, ◌*◌, ◌≤◌, length};
ghost use Rattle.definitions.specs.Sheet.{printed};
ghost use Rattle.definitions.specs.Layout.{rows};
ghost use Rattle.definitions.specs.Membership.{letter_M, c_lines as c_lines_definition};
ghost use Rattle.definitions.specs.Places.{most_terms, row_length, w_line_length, m_line_length, member_length};
ghost use Rattle.pages.specs.bytes.Printing.{Printed};
ghost use Rattle.member_page.specs.page.Lines.{lines_of};

use listing::printing;
use pages::bytes;

// `M,1` or `M,0`
fn m_line(out: &mut [u8], at: usize, x: usize) -> usize
    requires { (x ≤ 1) × (at + m_line_length ≤ length out.old) }
    ensures { Printed out.old out.new at result (printed letter_M (x ∷ [])) × (result ≤ at + m_line_length) }
{
    let a = bytes::byte(out, at, b'M');
    let b = printing::field(out, a, x);
    bytes::byte(out, b, b'\n')
}

// "`C,coefficient,element,e1,..,en` for each quotient term"
fn c_lines(out: &mut [u8], at: usize, s: &[u16], m: usize, n: usize) -> usize
    requires { (n ≤ 8) × (m * row_length ≤ length s.now) × (at + m * w_line_length ≤ length out.old) }
    ensures { Printed out.old out.new at result (c_lines_definition n (rows s.now 0 m))
        × (result ≤ at + m * w_line_length) }
{
    printing::term_lines(out, at, b'C', s, m, n)
}

// The lines of v rows of quotients and r rows of remainder, with n exponents.
pub fn print_lines(
    out: &mut [u8],
    quotients: &[u16],
    v: usize,
    remainder: &[u16],
    r: usize,
    n: usize,
) -> usize
    requires { (n ≤ 8) × (v ≤ most_terms) × (r ≤ most_terms) × (v * row_length ≤ length quotients.now) × (r * row_length ≤ length remainder.now)
        × (member_length ≤ length out.old) }
    ensures { Printed out.old out.new 0 result (lines_of n (rows quotients.now 0 v)
        (rows remainder.now 0 r)) × (result ≤ member_length) }
{
    let a = c_lines(out, 0, quotients, v, n);
    let b = printing::w_lines(out, a, remainder, r, n);
    m_line(out, b, usize::from(r == 0))
}
