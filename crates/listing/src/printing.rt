// The sheet's lines as bytes in a lent buffer.
// Knows: crate definitions' Sheet.
// Each function answers where its bytes end.
ghost use Rattle.std.specs.Prelude.{[], ◌∷◌, ◌+◌, ◌-◌, ◌*◌, ◌≤◌, ◌<◌, length, take};
ghost use Rattle.definitions.specs.Problem.{comma};
ghost use Rattle.definitions.specs.Sheet.{decimal, printed, term_fields, letter_S, letter_X, s_lines, vector_lines, level_lines, w_lines};
ghost use Rattle.definitions.specs.Layout.{rows};
ghost use Rattle.definitions.specs.Places.{
  most_vectors,
  row_length,
  s_line_length,
  w_line_length,
  pair_line_length,
  s_lines_length,
  level_lines_length,
};
ghost use Rattle.words.specs.refusals.Numbers.{number_of};
ghost use Rattle.vectors.specs.terms.Rows.{term_of};
ghost use Rattle.reducers.specs.tables.Cuts.{Cut, cut_level};
ghost use Rattle.pages.specs.bytes.Printing.{Printed};
ghost use Rattle.listing.specs.printing.Lines.{listed, term_lines, Short};

use pages::bytes;
use vectors::terms;
use vectors::terms::Term;
use words::refusals::Refused;

// A comma and a number.
pub fn field(out: &mut [u8], at: usize, v: usize) -> usize
    requires { at + 1 + length (decimal v) ≤ length out.old }
    ensures { Printed out.old out.new at result (comma ∷ decimal v) }
{
    let a = bytes::byte(out, at, b',');
    bytes::number(out, a, v)
}

// .. that is a word.
pub fn word(out: &mut [u8], at: usize, v: u16) -> usize
    requires { at + 6 ≤ length out.old }
    ensures { Printed out.old out.new at result (comma ∷ decimal v) × (result ≤ at + 6) }
{
    field(out, at, usize::from(v))
}

// The first n exponents.
fn exponents(out: &mut [u8], at: usize, e: [u16; words::EXPONENTS_LENGTH], n: usize) -> usize
    requires { (n ≤ 8) × (at + n * 6 ≤ length out.old) }
    ensures { Printed out.old out.new at result (listed (take n e)) × (result ≤ at + n * 6) }
{
    let mut a = at;
    for j in 0..n {
        a = word(out, a, e[j]);
    }
    a
}

// Coefficient, component and the first n exponents.
pub fn term(out: &mut [u8], at: usize, t: Term, n: usize) -> usize
    requires { (n ≤ 8) × (at + 60 ≤ length out.old) }
    ensures { Printed out.old out.new at result (listed (term_fields n (term_of t))) × (result ≤ at + 60) }
{
    let m = t.monomial;
    let e = monomial::widened(m.exponents);
    let a = word(out, at, t.coefficient);
    let b = word(out, a, m.component);
    exponents(out, b, e, n)
}

// `S,level,vector,coefficient,component,e1,..,en`
fn s_line(out: &mut [u8], at: usize, t: Term, n: usize, k: u16, v: u16) -> usize
    requires { (n ≤ 8) × (at + s_line_length ≤ length out.old) }
    ensures { Printed out.old out.new at result (printed letter_S (k ∷ v ∷ term_fields n (term_of t)))
        × (result ≤ at + s_line_length) }
{
    let a = bytes::byte(out, at, b'S');
    let b = word(out, a, k);
    let c = word(out, b, v);
    let d = term(out, c, t, n);
    bytes::byte(out, d, b'\n')
}

// A letter and a term: `W,coefficient,component,e1,..,en`
fn term_line(out: &mut [u8], at: usize, letter: u8, t: Term, n: usize) -> usize
    requires { (n ≤ 8) × (at + w_line_length ≤ length out.old) }
    ensures { Printed out.old out.new at result (printed letter (term_fields n (term_of t))) × (result ≤ at + w_line_length) }
{
    let a = bytes::byte(out, at, letter);
    let b = term(out, a, t, n);
    bytes::byte(out, b, b'\n')
}

// A letter and two numbers, as in `Z,level,count`.
pub fn pair_line(out: &mut [u8], at: usize, letter: u8, x: u16, y: usize) -> usize
    requires { at + pair_line_length ≤ length out.old }
    ensures { Printed out.old out.new at result (printed letter (x ∷ y ∷ [])) × (result ≤ at + pair_line_length) }
{
    let a = bytes::byte(out, at, letter);
    let b = word(out, a, x);
    let c = field(out, b, y);
    bytes::byte(out, c, b'\n')
}

// `X,number,place`
pub fn x_line(out: &mut [u8], at: usize, refused: Refused) -> usize
    requires { at + pair_line_length ≤ length out.old }
    ensures { Printed out.old out.new at result (printed letter_X (number_of refused.refusal ∷ refused.place ∷ []))
        × (result ≤ at + pair_line_length) }
{
    pair_line(out, at, b'X', refused.refusal.number(), refused.place)
}

// The lines of the rows from row `from` up to row `to`: vector v of level k.
pub fn s_lines(
    out: &mut [u8],
    at: usize,
    level: &[u16],
    from: usize,
    to: usize,
    n: usize,
    k: u16,
    v: u16,
) -> usize
    requires { (n ≤ 8) × (from ≤ to) × (to * row_length ≤ length level.now) × (at + (to - from) * s_line_length ≤ length out.old) }
    ensures { Printed out.old out.new at result (s_lines n k v (rows level.now from (to - from)))
        × (result ≤ at + (to - from) * s_line_length) }
{
    let mut a = at;
    for i in from..to {
        let t = terms::row(level, i);
        a = s_line(out, a, t, n, k, v);
    }
    a
}

// The lines of all vectors of level k.
fn vector_lines(
    out: &mut [u8],
    at: usize,
    level: &[u16],
    ends: &[u16],
    count: usize,
    n: usize,
    k: u16,
) -> usize
    requires { (n ≤ 8) × (count ≤ most_vectors) × Cut count level.now ends.now × Short count ends.now
        × (at + s_lines_length ≤ length out.old) }
    ensures { Printed out.old out.new at result (vector_lines n k 1 (cut_level count level.now ends.now))
        × (result ≤ at + s_lines_length) }
{
    let mut a = at;
    let mut start: usize = 0;
    let mut v: u16 = 1;
    for j in 0..count {
        let end = words::place(ends[j]);
        a = s_lines(out, a, level, start, end, n, k, v);
        start = end;
        v += 1;
    }
    a
}

// "`Z,level,count of vectors` after each level"
pub fn level_lines(
    out: &mut [u8],
    at: usize,
    level: &[u16],
    ends: &[u16],
    count: usize,
    n: usize,
    k: u16,
) -> usize
    requires { (n ≤ 8) × (count ≤ most_vectors) × Cut count level.now ends.now × Short count ends.now
        × (at + level_lines_length ≤ length out.old) }
    ensures { Printed out.old out.new at result (level_lines n k (cut_level count level.now ends.now))
        × (result ≤ at + level_lines_length) }
{
    let a = vector_lines(out, at, level, ends, count, n, k);
    pair_line(out, a, b'Z', k, count)
}

// The lines of the first m rows, with this letter.
pub fn term_lines(out: &mut [u8], at: usize, letter: u8, s: &[u16], m: usize, n: usize) -> usize
    requires { (n ≤ 8) × (m * row_length ≤ length s.now) × (at + m * w_line_length ≤ length out.old) }
    ensures { Printed out.old out.new at result (term_lines letter n (rows s.now 0 m))
        × (result ≤ at + m * w_line_length) }
{
    let mut a = at;
    for i in 0..m {
        let t = terms::row(s, i);
        a = term_line(out, a, letter, t, n);
    }
    a
}

// "After X,9 the value follows": the lines of the first m rows.
pub fn w_lines(out: &mut [u8], at: usize, s: &[u16], m: usize, n: usize) -> usize
    requires { (n ≤ 8) × (m * row_length ≤ length s.now) × (at + m * w_line_length ≤ length out.old) }
    ensures { Printed out.old out.new at result (w_lines n (rows s.now 0 m)) × (result ≤ at + m * w_line_length) }
{
    term_lines(out, at, b'W', s, m, n)
}
