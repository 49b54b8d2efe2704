// Terms as rows of six words in a lent slice: coefficient, component, the exponents' number in four words, the lowest first.
// Knows: crate definitions' Vectors and the rows of its Layout.
// Every function works on the rows from row 0 of the slice that it is lent.
ghost use Rattle.std.specs.Prelude.{◌≡◌, ◌+◌, ◌-◌, ◌*◌, ◌≤◌, ◌<◌, length, set};
ghost use Rattle.std.proofs.Math.Seq.{paste};
ghost use Rattle.definitions.specs.Monomial.{same_exponents?, same_monomial?};
ghost use Rattle.definitions.specs.Packed.{unpack};
ghost use Rattle.definitions.specs.Layout.{row_at, row_of};
ghost use Rattle.laws.proofs.Packing.{Eight};
ghost use Rattle.definitions.specs.Places.{row_length};
ghost use Rattle.monomial.specs.Values.{monomial_of};
ghost use Rattle.vectors.specs.terms.Rows.{term_of, written, closed, opened, cleared};

use monomial::Monomial;

#[derive(Clone, Copy)]
pub struct Term {
    pub coefficient: u16,
    pub monomial: Monomial,
}

// Row i by value.
pub fn row(s: &[u16], i: usize) -> Term
    requires { i * row_length + row_length ≤ length s.now }
    ensures { term_of result ≡ row_at s.now i }
{
    let at = i * words::ROW_LENGTH;
    Term {
        coefficient: s[at],
        monomial: Monomial {
            exponents: words::long(s, at + words::EXPONENTS_OFFSET),
            component: s[at + words::COMPONENT_OFFSET],
        },
    }
}

// The words of a row.
fn words(c: u16, m: u16, e: u64) -> [u16; words::ROW_LENGTH]
    ensures { (result ≡ row_of (c, (unpack e, m))) × Eight (unpack e) }
{
    [
        c,
        m,
        (e % 65536) as u16,
        (e / 65536 % 65536) as u16,
        (e / 0x0001_0000_0000 % 65536) as u16,
        (e / 0x0001_0000_0000_0000) as u16,
    ]
}

// Six words stored from word at on.
fn store_words(s: &mut [u16], at: usize, w: [u16; words::ROW_LENGTH])
    requires { at + row_length ≤ length s.old }
    ensures { s.new ≡ paste s.old at w row_length }
{
    for j in 0..words::ROW_LENGTH {
        s[at + j] = w[j];
    }
}

// The term stored in row i.
pub fn put(s: &mut [u16], i: usize, t: Term)
    requires { i * row_length + row_length ≤ length s.old }
    ensures { (s.new ≡ written s.old i (term_of t)) × Eight (term_of t).1.0 }
{
    let w = words(t.coefficient, t.monomial.component, t.monomial.exponents);
    store_words(s, i * words::ROW_LENGTH, w);
}

// The coefficient of row i, changed in place.
pub fn set_coefficient(s: &mut [u16], i: usize, c: u16)
    requires { i * row_length + row_length ≤ length s.old }
    ensures { s.new ≡ set s.old (i * row_length) c }
{
    s[i * words::ROW_LENGTH] = c;
}

// Whether row i has these exponents: they are one number.
pub fn with_exponents(s: &[u16], i: usize, x: u64) -> bool
    requires { i * row_length + row_length ≤ length s.now }
    ensures { result ≡ same_exponents? (unpack x) (row_at s.now i).1.0 }
{
    monomial::same_exponents(x, row(s, i).monomial.exponents)
}

// Whether row i has the monomial: its exponents decide mostly.
pub fn same_row(s: &[u16], i: usize, m: Monomial) -> bool
    requires { i * row_length + row_length ≤ length s.now }
    ensures { result ≡ same_monomial? (monomial_of m) (row_at s.now i).1 }
{
    let n = row(s, i).monomial;
    monomial::same_exponents(m.exponents, n.exponents) && m.component == n.component
}

// Row i leaves the first n rows; those above it close up.
pub fn remove(s: &mut [u16], n: usize, i: usize)
    requires { (i < n) × (n * row_length ≤ length s.old) }
    ensures { s.new ≡ closed s.old (i * row_length) (n * row_length - row_length) }
{
    let end = n * words::ROW_LENGTH - words::ROW_LENGTH;
    for k in i * words::ROW_LENGTH..end {
        s[k] = s[k + words::ROW_LENGTH];
    }
}

// The rows from row i on, of the first n, go up by one.
pub fn open(s: &mut [u16], n: usize, i: usize)
    requires { (i ≤ n) × (n * row_length + row_length ≤ length s.old) }
    ensures { s.new ≡ opened s.old (i * row_length) (n * row_length) }
{
    let start = i * words::ROW_LENGTH;
    for k in (start..n * words::ROW_LENGTH).rev() {
        s[k + words::ROW_LENGTH] = s[k];
    }
}

// Zeros from word a to the end.
pub fn clear(s: &mut [u16], a: usize)
    ensures { s.new ≡ cleared s.old a }
{
    for k in a..s.len() {
        s[k] = 0;
    }
}

// The first n words of another slice, from word at on.
pub fn copy(d: &mut [u16], at: usize, s: &[u16], n: usize)
    requires { (at + n ≤ length d.old) × (n ≤ length s.now) }
    ensures { d.new ≡ paste d.old at s.now n }
{
    for j in 0..n {
        d[at + j] = s[j];
    }
}
