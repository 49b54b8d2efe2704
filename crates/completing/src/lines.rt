// T lines and the E line as bytes in a lent buffer, and how many lines end in it.
// Knows: crate definitions' Written.
// Each function that prints answers where its bytes end.
ghost use Rattle.std.specs.Prelude.{◌≡◌, [], ◌∷◌, ◌+◌, ◌*◌, ◌≤◌, ◌<◌, eqb, length, take};
ghost use Rattle.definitions.specs.Lists.{count as count_definition};
ghost use Rattle.definitions.specs.Field.{times as times_definition};
ghost use Rattle.definitions.specs.Problem.{newline, letter_T, letter_E};
ghost use Rattle.definitions.specs.Reckoning.{scaled};
ghost use Rattle.definitions.specs.Sheet.{printed, term_fields};
ghost use Rattle.definitions.specs.Written.{element_lines as element_lines_definition};
ghost use Rattle.definitions.specs.Layout.{rows};
ghost use Rattle.definitions.specs.Places.{row_length, t_line_length, end_line_length};
ghost use Rattle.vectors.specs.terms.Rows.{term_of};
ghost use Rattle.pages.specs.bytes.Printing.{Printed};

use listing::printing;
use pages::bytes;
use vectors::terms;
use vectors::terms::Term;

// `T,element,coefficient,component,e1,..,en`
fn t_line(out: &mut [u8], at: usize, t: Term, n: usize, element: u16) -> usize
    requires { (n ≤ 8) × (at + t_line_length ≤ length out.old) }
    ensures { Printed out.old out.new at result (printed letter_T (element ∷ term_fields n (term_of t)))
        × (result ≤ at + t_line_length) }
{
    let a = bytes::byte(out, at, b'T');
    let b = printing::word(out, a, element);
    let c = printing::term(out, b, t, n);
    bytes::byte(out, c, b'\n')
}

// A term times a number.
fn multiplied(t: Term, c: u16, p: u16) -> Term
    requires { 0 < p }
    ensures { term_of result ≡ (times_definition p c t.coefficient, (term_of t).1) }
{
    Term {
        coefficient: field::times(c, t.coefficient, p),
        monomial: t.monomial,
    }
}

// The T lines of an element: the first m rows, each times a number.
pub fn element_lines(
    out: &mut [u8],
    at: usize,
    s: &[u16],
    m: usize,
    n: usize,
    element: u16,
    c: u16,
    p: u16,
) -> usize
    requires { (n ≤ 8) × (0 < p) × (m * row_length ≤ length s.now) × (at + m * t_line_length ≤ length out.old) }
    ensures { Printed out.old out.new at result (element_lines_definition n element (scaled p c (rows s.now 0 m)))
        × (result ≤ at + m * t_line_length) }
{
    let mut a = at;
    for i in 0..m {
        let t = terms::row(s, i);
        let u = multiplied(t, c, p);
        a = t_line(out, a, u, n, element);
    }
    a
}

// `E,count of T lines`
pub fn end_line(out: &mut [u8], at: usize, count: u16) -> usize
    requires { at + end_line_length ≤ length out.old }
    ensures { Printed out.old out.new at result (printed letter_E (count ∷ [])) × (result ≤ at + end_line_length) }
{
    let a = bytes::byte(out, at, b'E');
    let b = printing::word(out, a, count);
    bytes::byte(out, b, b'\n')
}

// How many lines end in the first n bytes.
pub fn lines_in(file: &[u8], n: usize) -> usize
    requires { n ≤ length file.now }
    ensures { (result ≡ count_definition (λ b. eqb b newline) (take n file.now)) × (result ≤ n) }
{
    let mut k: usize = 0;
    for i in 0..n {
        k += usize::from(file[i] == b'\n');
    }
    k
}
