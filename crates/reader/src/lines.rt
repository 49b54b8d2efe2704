// The lines of a problem file one by one: the tests of each in their order, and what it says.
// Knows: crate definitions' Problem, tests and refusals of R, D, G, T and E lines.
// The sequence of lines is decided by `head_lines` and `next_line` alone.
ghost use Rattle.std.specs.Prelude.{◌≡◌, true, ◌+◌, ◌≤◌, ◌<◌, take, drop, replicate};
ghost use Rattle.definitions.specs.Lists.{between};
ghost use Rattle.definitions.specs.Limits.{document_01};
ghost use Rattle.definitions.specs.Monomial.{fits?};
ghost use Rattle.definitions.specs.Problem.{term_in_range?};
ghost use Rattle.definitions.specs.Places.{most_exponent, most_variables, most_components, most_rows};
ghost use Rattle.words.specs.parameters.Values.{parameters_of};
ghost use Rattle.vectors.specs.terms.Rows.{term_of};
ghost use Rattle.reader.specs.lines.Tests.{
  term_in,
  begins?,
  follows?,
  above?,
  descends? as descends_definition,
  t_number,
  r_number,
  number_said,
};
ghost use Rattle.reader.specs.lines.Steps.{
  r_first,
  optional,
  d_first,
  weights_words,
  g_next,
  behind_r,
  head_first,
  t_first,
  e_first,
  line_first,
  first_as,
  optional_as,
  head_as,
  taken_as,
};
ghost use Rattle.words.specs.refusals.Numbers.{number_of};
ghost use Rattle.words.specs.declared.refusals.Refusal.TheVariants.{Shape};

use crate::fields;
use crate::fields::Line;
use monomial::Monomial;
use std::cmp::Ordering;
use vectors::terms::Term;
use words::parameters;
use words::parameters::Parameters;
use words::refusals::{Refusal, Refused};

// The R line: its parameters, and the position behind it.
#[derive(Clone, Copy)]
pub struct First {
    pub next: usize,
    pub parameters: Parameters,
}

// A line that may be left out: its numbers, or those that hold without it; the position and the number of the next line.
#[derive(Clone, Copy)]
pub struct Optional {
    pub next: usize,
    pub place: usize,
    pub numbers: [u16; 16],
}

// The head, the lines before the first T line; zeros behind the degrees of the components and behind the weights of the variables, two for each. Then
// the position and the number of the next line.
#[derive(Clone, Copy)]
pub struct Head {
    pub next: usize,
    pub place: usize,
    pub parameters: Parameters,
    pub degrees: [u16; words::DEGREES_LENGTH],
    pub weights: [u16; words::WEIGHTS_LENGTH],
}

// What a line behind the head says: a term, or the file's end.
#[derive(Clone, Copy)]
pub enum Taken {
    Term(Line),
    End,
}

// A line without its shape.
fn misshapen(place: usize) -> Refused
    ensures { result ≡ record { refusal = Shape; place = place } }
{
    Refused {
        refusal: Refusal::Shape,
        place,
    }
}

fn parameters_refusal(q: Parameters) -> Result<(), Refusal>
    ensures { number_said result ≡ r_number (parameters_of q) }
{
    if !field::prime_in_range(q.p) {
        return Err(Refusal::Modulus);
    }
    if !parameters::in_ranges(q) {
        return Err(Refusal::Parameters);
    }
    Ok(())
}

fn first_line(file: &[u8]) -> Result<First, Refusal>
    ensures { first_as result file.now ≡ r_first file.now }
{
    let line = fields::line_at(file, 0, b'R', 4).ok_or(Refusal::Shape)?;
    let [p, n, code, s, ..] = line.numbers;
    let parameters = Parameters { p, n, code, s };
    parameters_refusal(parameters)?;
    Ok(First {
        next: line.next,
        parameters,
    })
}

// Whether no number is above the most.
fn all_fit(v: &[u16], most: u16) -> bool
    ensures { result ≡ fits? most v.now }
{
    for x in v {
        if most < *x {
            return false;
        }
    }
    true
}

// The line with this letter at a position, where it stands there; refused where a number is above the most. A line without its shape is left to what comes
// behind: the numbers are those that hold without it.
fn optional_line(
    file: &[u8],
    at: usize,
    place: usize,
    letter: u8,
    count: usize,
    most: u16,
    refusal: Refusal,
    without: [u16; 16],
) -> Result<Optional, Refused>
    requires { (57 < letter) × (count ≤ 16) × (place ≤ 3) }
    ensures { optional_as result file.now ≡ optional letter count most (number_of refusal) without place (drop at file.now) }
{
    let Some(line) = fields::line_at(file, at, letter, count) else {
        return Ok(Optional {
            next: at,
            place,
            numbers: without,
        });
    };
    let numbers = line.numbers;
    if !all_fit(&numbers, most) {
        return Err(Refused { refusal, place });
    }
    Ok(Optional {
        next: line.next,
        place: place + 1,
        numbers,
    })
}

fn degrees_line(file: &[u8], at: usize, s: u16) -> Result<Optional, Refused>
    requires { s ≤ most_components }
    ensures { optional_as result file.now ≡ d_first s (drop at file.now) }
{
    optional_line(
        file,
        at,
        2,
        b'D',
        usize::from(s),
        words::MOST_DEGREE,
        Refusal::DegreeRange,
        [0; words::DEGREES_LENGTH],
    )
}

// 1 and 0 for each of n variables: the weights without a G line.
fn plain_weights(n: usize) -> [u16; words::WEIGHTS_LENGTH]
    requires { n ≤ most_variables }
    ensures { result ≡ weights_words (replicate n (1, 0)) }
{
    let mut w = [0u16; words::WEIGHTS_LENGTH];
    for j in 0..n {
        w[2 * j] = 1;
    }
    w
}

fn weights_line(file: &[u8], at: usize, place: usize, n: u16) -> Result<Optional, Refused>
    requires { (n ≤ most_variables) × (place ≤ 3) }
    ensures { optional_as result file.now ≡ g_next n place (drop at file.now) }
{
    let m = usize::from(n);
    optional_line(
        file,
        at,
        place,
        b'G',
        2 * m,
        words::MOST_WEIGHT,
        Refusal::WeightRange,
        plain_weights(m),
    )
}

// Behind R's line: D's, then G's.
fn behind_first(file: &[u8], at: usize, parameters: Parameters) -> Result<Head, Refused>
    requires { (parameters.n ≤ most_variables) × (parameters.s ≤ most_components) }
    ensures { head_as result file.now ≡ behind_r (parameters_of parameters) (drop at file.now) }
{
    let degrees = degrees_line(file, at, parameters.s)?;
    let weights = weights_line(file, degrees.next, degrees.place, parameters.n)?;
    let d = degrees.numbers;
    let w = weights.numbers;
    Ok(Head {
        next: weights.next,
        place: weights.place,
        parameters,
        degrees: d,
        weights: w,
    })
}

// The head of a file, or its refusal.
pub fn head_lines(file: &[u8]) -> Result<Head, Refused>
    ensures { head_as result file.now ≡ head_first file.now }
{
    if words::FILE_LENGTH < file.len() {
        return Err(misshapen(0));
    }
    let first = first_line(file).map_err(|refusal| Refused { refusal, place: 1 })?;
    behind_first(file, first.next, first.parameters)
}

fn begins(elements: u16, element: u16) -> bool
    ensures { result ≡ begins? elements element }
{
    element != 0 && element - 1 == elements
}

fn follows(elements: u16, element: u16) -> bool
    ensures { result ≡ follows? elements element }
{
    let goes_on = element != 0 && element == elements;
    element <= words::MOST_ELEMENTS && (begins(elements, element) || goes_on)
}

pub fn exponents(w: [u16; 16]) -> [u16; words::EXPONENTS_LENGTH]
    ensures { result ≡ take 8 (drop 3 w) }
{
    [w[3], w[4], w[5], w[6], w[7], w[8], w[9], w[10]]
}

pub fn fits(e: [u16; words::EXPONENTS_LENGTH]) -> bool
    ensures { result ≡ fits? most_exponent e }
{
    all_fit(&e, words::MOST_EXPONENT)
}

pub fn term_in_range(q: Parameters, w: [u16; 16]) -> bool
    ensures { result ≡ term_in_range? document_01 (parameters_of q) (term_in w) }
{
    let c = w[1];
    c != 0 && c < q.p && words::between(1, w[2], q.s) && fits(exponents(w))
}

// The term before is the greater one.
pub fn above(code: u16, before: [u16; 16], w: [u16; 16]) -> bool
    ensures { result ≡ above? code before w }
{
    match orders::by_code(code, exponents(before), exponents(w)) {
        Ordering::Greater => true,
        Ordering::Equal => w[2] < before[2],
        Ordering::Less => false,
    }
}

fn descends(code: u16, elements: u16, before: [u16; 16], w: [u16; 16]) -> bool
    ensures { result ≡ descends_definition code elements before w }
{
    begins(elements, w[0]) || above(code, before, w)
}

// The tests of a T line that has its shape.
fn term_refusal(
    q: Parameters,
    count: usize,
    elements: u16,
    before: [u16; 16],
    w: [u16; 16],
) -> Result<(), Refusal>
    ensures { number_said result ≡ t_number (parameters_of q) count elements before w }
{
    if words::MOST_ROWS <= count {
        return Err(Refusal::Lines);
    }
    if !follows(elements, w[0]) {
        return Err(Refusal::Element);
    }
    if !term_in_range(q, w) {
        return Err(Refusal::Term);
    }
    if !descends(q.code, elements, before, w) {
        return Err(Refusal::Order);
    }
    Ok(())
}

fn term_line(
    file: &[u8],
    at: usize,
    q: Parameters,
    place: usize,
    count: usize,
    elements: u16,
    before: [u16; 16],
) -> Result<Taken, Refused>
    requires { q.n ≤ 8 }
    ensures { taken_as result file.now ≡ t_first (parameters_of q) place count elements before (drop at file.now) }
{
    let line = fields::line_at(file, at, b'T', 3 + usize::from(q.n)).ok_or(misshapen(place))?;
    term_refusal(q, count, elements, before, line.numbers).map_err(|refusal| Refused {
        refusal,
        place,
    })?;
    Ok(Taken::Term(line))
}

fn end_line(file: &[u8], at: usize, place: usize, count: usize) -> Result<Taken, Refused>
    requires { place ≤ most_rows + 4 }
    ensures { taken_as result file.now ≡ e_first place count (drop at file.now) }
{
    let line = fields::line_at(file, at, b'E', 1).ok_or(misshapen(place))?;
    let said = usize::from(line.numbers[0]);
    if said == 0 || said != count {
        return Err(Refused {
            refusal: Refusal::Count,
            place,
        });
    }
    if line.next < file.len() {
        return Err(misshapen(place + 1));
    }
    Ok(Taken::End)
}

// The sequence of lines behind the head: the letter decides.
pub fn next_line(
    file: &[u8],
    at: usize,
    q: Parameters,
    place: usize,
    count: usize,
    elements: u16,
    before: [u16; 16],
) -> Result<Taken, Refused>
    requires { (q.n ≤ 8) × (place ≤ most_rows + 4) }
    ensures { taken_as result file.now ≡ line_first (parameters_of q) place count elements before (drop at file.now) }
{
    match file.get(at) {
        Some(b'T') => term_line(file, at, q, place, count, elements, before),
        Some(b'E') => end_line(file, at, place, count),
        _ => Err(misshapen(place)),
    }
}

// The exponents as bytes: they were tested.
fn bytes(w: [u16; 16]) -> [u8; words::EXPONENTS_LENGTH]
    requires { fits? most_exponent (term_in w).1.0 ≡ true }
    ensures { result ≡ (term_in w).1.0 }
{
    [
        w[3] as u8,
        w[4] as u8,
        w[5] as u8,
        w[6] as u8,
        w[7] as u8,
        w[8] as u8,
        w[9] as u8,
        w[10] as u8,
    ]
}

// The term that a T line says.
pub fn term_said(w: [u16; 16]) -> Term
    requires { fits? most_exponent (term_in w).1.0 ≡ true }
    ensures { term_of result ≡ term_in w }
{
    let e = monomial::packed(bytes(w));
    Term {
        coefficient: w[1],
        monomial: Monomial {
            exponents: e,
            component: w[2],
        },
    }
}
