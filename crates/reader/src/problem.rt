// The reader: from the bytes of a problem file to the words of a state, or a refusal from 1 to 8, 18 or 24 with its place.
// Knows: crate definitions' Problem and the state's words in its Layout.
// The state that it leaves is read, not accepted: only a call that goes on to accept it may use it.
ghost use Rattle.std.specs.Prelude.{◌≡◌, true, [], ◌+◌, ◌*◌, ◌≤◌, ◌<◌, length, get_or, take, drop, replicate};
ghost use Rattle.std.proofs.Math.Seq.{paste};
ghost use Rattle.definitions.specs.Limits.{document_01};
ghost use Rattle.definitions.specs.Monomial.{fits?};
ghost use Rattle.definitions.specs.Problem.{head, problem as problem_definition};
ghost use Rattle.definitions.specs.Layout.{row_of};
ghost use Rattle.definitions.specs.Places.{
  most_exponent,
  most_weight,
  most_components,
  most_elements,
  most_vectors,
  most_rows,
  row_length,
  header_length,
  rows_start,
  degrees_start,
  state_length,
};
ghost use Rattle.words.specs.parameters.Values.{parameters_of};
ghost use Rattle.reader.specs.lines.Tests.{term_in};
ghost use Rattle.reader.specs.problem.Reading.{
  laid_level,
  body_words,
  problem_words,
  read_as,
  stored,
  begun,
  head_weights,
  Weighable,
  carried,
  carrying,
  outcome_as,
  answer_as,
};

use crate::lines;
use crate::lines::Taken;
use reducers::tables;
use vectors::terms;
use words::parameters::Parameters;
use words::refusals::Refused;

// The row of a line's term, behind so many.
fn store_row(state: &mut [u16], count: usize, w: [u16; 16])
    requires { (state_length ≤ length state.old) × (count < most_rows) × (fits? most_exponent (term_in w).1.0 ≡ true) }
    ensures { state.new ≡ paste state.old (rows_start + count * row_length) (row_of (term_in w)) row_length }
{
    let t = lines::term_said(w);
    terms::put(&mut state[words::ROWS_START..], count, t);
}

fn store(state: &mut [u16], count: usize, w: [u16; 16])
    requires { (state_length ≤ length state.old) × (count < most_rows) × (get_or w 0 0 ≤ most_elements)
        × (fits? most_exponent (term_in w).1.0 ≡ true) }
    ensures { state.new ≡ stored state.old count w }
{
    store_row(state, count, w);
    let element = w[0];
    state[words::HEADER_LENGTH + usize::from(element)] = (count + 1) as u16;
    state[words::HEADER_LENGTH] = element;
}

// The header, and the components' degrees behind all rows.
fn begin(state: &mut [u16], q: Parameters, d: [u16; words::DEGREES_LENGTH])
    requires { state_length ≤ length state.old }
    ensures { (state.new ≡ begun state.old (parameters_of q) d) × (length d ≡ most_components) }
{
    state[0] = q.p;
    state[1] = q.n;
    state[2] = q.code;
    state[3] = q.s;
    state[4] = 1;
    terms::copy(state, words::DEGREES_START, &d, words::DEGREES_LENGTH);
}

// The lines behind the head, the first with this number, into a state with no element yet.
fn body(
    file: &[u8],
    from: usize,
    first: usize,
    q: Parameters,
    state: &mut [u16],
) -> Result<(), Refused>
    requires { (q.n ≤ 8) × (first ≤ 4) × (state_length ≤ length state.old)
        × (state.old ≡ laid_level (parameters_of q) [] (drop degrees_start state.old)) }
    ensures { outcome_as result state.new
        ≡ body_words (drop degrees_start state.old) (parameters_of q) first (drop from file.now) }
{
    let mut at = from;
    let mut count: usize = 0;
    let mut elements: u16 = 0;
    let mut before = [0u16; 16];
    // A while: the position jumps by a line, and the line says whether it was the last.
    while let Taken::Term(line) = lines::next_line(
        file,
        at,
        q,
        count + first,
        count,
        elements,
        before,
    )? {
        store(state, count, line.numbers);
        elements = line.numbers[0];
        before = line.numbers;
        at = line.next;
        count += 1;
    }
    Ok(())
}

// The file, into a state of zeros; what a refused one leaves there is to be zeroed.
fn read_lines(file: &[u8], state: &mut [u16]) -> Result<(), Refused>
    requires { (state_length ≤ length state.old) × (state.old ≡ replicate (length state.old) 0) }
    ensures { outcome_as result state.new ≡ problem_words (length state.old) file.now }
{
    let head = lines::head_lines(file)?;
    begin(state, head.parameters, head.degrees);
    body(file, head.next, head.place, head.parameters, state)
}

// The degrees of the elements in a state.
fn weigh(d: &mut [u16], state: &[u16])
    requires { (most_vectors ≤ length d.old) × Weighable state.now }
    ensures { take (get_or state.now header_length 0) d.new ≡ carried state.now }
{
    let r = words::place(state[words::HEADER_LENGTH]);
    let n = words::place(state[3]);
    tables::fill_degrees(
        d,
        &state[words::ROWS_START..],
        &state[words::ENDS_START..],
        r,
        &state[words::DEGREES_START..],
        n,
    );
}

// .. in their place: each carries its degree from the reading on.
fn carry(state: &mut [u16])
    requires { Weighable state.old }
    ensures { state.new ≡ carrying state.old }
{
    let mut d = [0u16; words::MOST_VECTORS];
    weigh(&mut d, state);
    let r = words::place(state[words::HEADER_LENGTH]);
    terms::copy(state, words::CARRIED_START, &d, r);
}

// Reads a file. Read, not accepted: the state's words are those of its elements as level 0, which acceptance has still to divide; refused, they are
// zeros.
pub fn read(file: &[u8], state: &mut [u16]) -> Result<(), Refused>
    requires { state_length ≤ length state.old }
    ensures { answer_as result state.new ≡ read_as (length state.old) (problem_definition document_01 file.now) }
{
    terms::clear(state, 0);
    if let Err(refused) = read_lines(file, state) {
        terms::clear(state, 0);
        return Err(refused);
    }
    carry(state);
    Ok(())
}

// The weights of a file's variables, two for each: no state holds them. Zeros where the head is refused.
pub fn weights(file: &[u8]) -> [u16; words::WEIGHTS_LENGTH]
    ensures { (result ≡ head_weights (head document_01 file.now)) × (fits? most_weight result ≡ true) }
{
    match lines::head_lines(file) {
        Ok(head) => head.weights,
        Err(_) => [0; words::WEIGHTS_LENGTH],
    }
}
