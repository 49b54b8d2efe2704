// The call that divides a lent vector by the elements of a state.
// Exists for: `divide`.
// Knows: crate definitions' Layout.
// A call asks for nothing: a buffer that is too short is 16, words that hold no state are 11. The state is only read.
#![tactic(auto)]

ghost use Rattle.std.specs.Prelude.{◌≡◌, ℕ, ◌+◌, ◌*◌, ◌≤◌, T, length};
ghost use Rattle.std.proofs.Math.Option.{some};
ghost use Rattle.definitions.specs.Layout.{rows, rows_of, padded, divide_left};
ghost use Rattle.definitions.specs.Places.{most_terms, row_length, state_length, value_length, vector_length};
ghost use Rattle.ending.specs.Good.{good?};
ghost use Rattle.level.specs.by_runs.Stages.{Base};
ghost use Rattle.dividing.specs.over.Parts.{parts_as, divided_over, Few};
ghost use Rattle.divide_call.specs.Rows.{row_below?, row_fits?, first_bad, bad_of};
ghost use Rattle.divide_call.specs.Replies.{divide_reply, DividesAs};

use dividing::over;
use dividing::steps::Divided;
use fetch_call::Reply;
use level::by_runs;
use state::soundness;
use state::soundness::Bounds;
use vectors::terms;
use words::refusals::Refusal;

// ## The rows

fn row_below(vector: &[u16], i: usize, code: u16) -> bool
    requires { i * row_length + row_length ≤ length vector.now }
    ensures { result ≡ row_below? code vector.now i }
{
    if i == 0 {
        return true;
    }
    let t = terms::row(vector, i - 1);
    let u = terms::row(vector, i);
    orders::compare(code, t.monomial, u.monomial).is_gt()
}

fn row_fits(vector: &[u16], i: usize, b: Bounds, code: u16) -> bool
    requires { i * row_length + row_length ≤ length vector.now }
    ensures { result ≡ row_fits? b code vector.now i }
{
    i < words::MOST_TERMS && soundness::row_holds(vector, i, b) && row_below(vector, i, code)
}

// The first n rows, one by one: the number of the first bad one, counted from 1.
fn rows_taken(vector: &[u16], n: usize, b: Bounds, code: u16) -> Result<(), usize>
    requires { n * row_length ≤ length vector.now }
    ensures { bad_of result ≡ first_bad b code vector.now 0 n }
{
    for i in 0..n {
        if !row_fits(vector, i, b, code) {
            return Err(i + 1);
        }
    }
    Ok(())
}

// ## The division

// The first n rows divided: they are copied, since a division uses its value up.
fn divide_rows(
    state: &[u16],
    vector: &[u16],
    n: usize,
    quotients: &mut [u16],
    remainder: &mut [u16],
) -> Result<Divided, Refusal>
    requires { Base state.now 0 × (n ≤ most_terms) × (n * row_length ≤ length vector.now) × (vector_length ≤ length quotients.old)
        × (value_length ≤ length remainder.old) × T (good? (rows vector.now 0 n)) }
    ensures { ((k : ℕ) × (parts_as result quotients.new remainder.new
        ≡ divided_over state.now k (rows vector.now 0 n))) × Few result }
{
    let mut value = [0u16; words::VALUE_LENGTH];
    by_runs::show(&mut value, vector, n);
    over::divide_vector(&mut value, n, quotients, remainder, state)
}

// Zeros behind the first n rows. Words of sixteen bits are the rows of what they say.
fn zero_behind(out: &mut [u16], n: usize)
    requires { n * row_length ≤ length out.old }
    ensures { out.new ≡ padded (length out.old) (rows_of (rows out.old 0 n)) }
{
    words::know(out);
    terms::clear(out, n * words::ROW_LENGTH);
}

// What a division leaves in the two buffers.
fn settle(quotients: &mut [u16], remainder: &mut [u16], x: Result<Divided, Refusal>) -> Reply
    requires { (vector_length ≤ length quotients.old) × (value_length ≤ length remainder.old) × Few x }
    ensures { some (divide_reply result quotients.new remainder.new)
        ≡ divide_left quotients.old remainder.old (parts_as x quotients.old remainder.old) }
{
    match x {
        Ok(d) => {
            zero_behind(quotients, d.quotients);
            zero_behind(remainder, d.remainder);
            Reply {
                number: 0,
                place: 0,
            }
        }
        Err(refusal) => {
            terms::clear(quotients, 0);
            terms::clear(remainder, 0);
            Reply {
                number: refusal.number(),
                place: 0,
            }
        }
    }
}

// ## The call

// The words hold a state.
fn divide_sound(
    state: &[u16],
    vector: &[u16],
    quotients: &mut [u16],
    remainder: &mut [u16],
) -> Reply
    requires { Base state.now 0 × (vector_length ≤ length quotients.old) × (value_length ≤ length remainder.old) }
    ensures { DividesAs result state.now vector.now quotients.old remainder.old quotients.new
        remainder.new }
{
    let n = vector.len() / words::ROW_LENGTH;
    let b = soundness::row_bounds(state[0], state[1], state[3]);
    if let Err(place) = rows_taken(vector, n, b, state[2]) {
        terms::clear(quotients, 0);
        terms::clear(remainder, 0);
        return Reply {
            number: Refusal::VectorLine.number(),
            place,
        };
    }
    let x = divide_rows(state, vector, n, quotients, remainder);
    settle(quotients, remainder, x)
}

// The vector divided by the elements of the state.
pub fn divide(state: &[u16], vector: &[u16], quotients: &mut [u16], remainder: &mut [u16]) -> Reply
    ensures { DividesAs result state.now vector.now quotients.old remainder.old quotients.new
        remainder.new }
{
    if state.len() < words::STATE_LENGTH
        || quotients.len() < words::VECTOR_LENGTH
        || remainder.len() < words::VALUE_LENGTH
    {
        return Reply {
            number: Refusal::Buffer.number(),
            place: 0,
        };
    }
    if !soundness::sound(state) {
        return Reply {
            number: Refusal::State.number(),
            place: 0,
        };
    }
    divide_sound(state, vector, quotients, remainder)
}
