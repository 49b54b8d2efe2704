// The run of one frame term by division or hybrid: a loop of steps, with no bound on them but the falling number of crate ending.
// Knows: crate definitions' Run.
// Value and vector are rows from row 0 of two lent slices.
ghost use Rattle.std.specs.Prelude.{◌≡◌, [], ℕ, ◌*◌, ◌≤◌, ◌<◌, T, length, Ok};
ghost use Rattle.std.proofs.Math.Option.{some};
ghost use Rattle.definitions.specs.Monomial as definition;
ghost use Rattle.definitions.specs.Order.{Comparison};
ghost use Rattle.definitions.specs.Run.{by_pick, step as step_definition, runs, run as run_definition, add_products};
ghost use Rattle.definitions.specs.Packed.{unpack};
ghost use Rattle.definitions.specs.Layout.{rows};
ghost use Rattle.definitions.specs.Places.{row_length};
ghost use Rattle.ending.specs.Good.{good?};
ghost use Rattle.ending.specs.Well.{Well};
ghost use Rattle.monomial.specs.Values.{monomial_of};
ghost use Rattle.orders.specs.Images.{table_of, table_order};
ghost use Rattle.runs.specs.reduction.Grounds.{reduction_of, family_of, ends_in, below_in, above_in, Tables, Family, added_of, Within};
ghost use Rattle.runs.specs.run.Stages.{
  order_of,
  stage_of,
  strategy_of,
  run_of,
  Images,
  Rooms,
  reduced_by,
  without_step,
  without_words,
  step_of,
  Room,
  ended_of,
  outcome_of,
  Ended,
};

use crate::reduction;
use crate::reduction::Ground;
use monomial::Monomial;
use vectors::terms::Term;
use vectors::{sums, terms};
use words::refusals::Refusal;

// How a run goes: whether products of lower order are dropped, the pick code, whether a term without a reducer ends it.
#[derive(Clone, Copy)]
pub struct Strategy {
    pub drops: bool,
    pub pick: u16,
    pub stops: bool,
}

// The rows of value and vector after a step; the value's rows where its picked term has no reducer.
#[derive(Clone, Copy)]
pub enum Step {
    On(usize, usize),
    Stopped(usize),
}

// The rows of the vector; the rows of the value that has no reducer.
#[derive(Clone, Copy)]
pub enum Outcome {
    Finished(usize),
    Stopped(usize),
}

// The multiple c·q·f_j into the vector, then its products to the value.
fn reduced(
    value: &mut [u16],
    n: usize,
    vector: &mut [u16],
    v: usize,
    level: &[u16],
    tables: &[u16],
    g: Ground,
    drops: bool,
    j: usize,
    c: u16,
    q: u64,
) -> Result<Step, Refusal>
    requires { Tables g tables.now × Family g level.now (ends_in tables.now) × Rooms g value.old vector.old × (n ≤ g.working)
        × (v ≤ g.vector) × (1 ≤ j) × (j ≤ g.r) }
    ensures { ((order : definition.Monomial → definition.Monomial → Comparison) → step_of order g.p result value.new vector.new
        ≡ reduced_by (reduction_of g tables.now) (family_of g level.now (ends_in tables.now)) drops
        (run_of value.old n vector.old v) j c (unpack q)) × Room g result }
{
    let t = Term {
        coefficient: c,
        monomial: Monomial {
            exponents: q,
            component: j as u16,
        },
    };
    let v = reduction::store_term(vector, v, g.vector, g.p, t)?;
    let n = reduction::add_multiple(value, n, level, tables, j, c, q, g, drops)?;
    Ok(Step::On(n, v))
}

// The picked term, at place i, has no reducer: the run stops, or drops it.
fn without_reducer(value: &mut [u16], n: usize, v: usize, i: usize, stops: bool) -> Step
    requires { (i < n) × (n * row_length ≤ length value.old) }
    ensures { result ≡ without_step stops n v × (value.new ≡ without_words stops value.old n i) }
{
    if stops {
        return Step::Stopped(n);
    }
    terms::remove(value, n, i);
    Step::On(n - 1, v)
}

// One step at the term at place i.
pub fn step_at(
    value: &mut [u16],
    n: usize,
    vector: &mut [u16],
    v: usize,
    level: &[u16],
    tables: &[u16],
    g: Ground,
    w: Strategy,
    i: usize,
) -> Result<Step, Refusal>
    requires { Tables g tables.now × Family g level.now (ends_in tables.now) × Rooms g value.old vector.old × (i < n) × (n ≤ g.working)
        × (v ≤ g.vector) }
    ensures { ((above : definition.Monomial → definition.Monomial → Comparison)
        → step_of (order_of g tables.now) g.p result value.new vector.new
        ≡ by_pick (stage_of g level.now tables.now above) (strategy_of g tables.now w)
        (run_of value.old n vector.old v) (some i)) × Room g result }
{
    let t = terms::row(value, i);
    let Some(x) = reduction::reducer_of(tables, g, t) else {
        return Ok(without_reducer(value, n, v, i, w.stops));
    };
    let c = field::negative(x.coefficient, g.p);
    reduced(
        value, n, vector, v, level, tables, g, w.drops, x.number, c, x.quotient,
    )
}

// One step; the value is not empty.
fn one_step(
    value: &mut [u16],
    n: usize,
    vector: &mut [u16],
    v: usize,
    level: &[u16],
    tables: &[u16],
    g: Ground,
    w: Strategy,
) -> Result<Step, Refusal>
    requires { Tables g tables.now × Family g level.now (ends_in tables.now) × Images g.images (below_in tables.now)
        × Rooms g value.old vector.old × (0 < n) × (n ≤ g.working) × (v ≤ g.vector) }
    ensures { ((above : definition.Monomial → definition.Monomial → Comparison)
        → step_of (order_of g tables.now) g.p result value.new vector.new
        ≡ step_definition (stage_of g level.now tables.now above) (strategy_of g tables.now w)
        (run_of value.old n vector.old v)) × Room g result }
{
    let i = reduction::pick(value, n, w.pick, tables, g);
    step_at(value, n, vector, v, level, tables, g, w, i)
}

// Steps to the end.
fn steps(
    value: &mut [u16],
    start: usize,
    vector: &mut [u16],
    first: usize,
    level: &[u16],
    tables: &[u16],
    g: Ground,
    w: Strategy,
) -> Result<Outcome, Refusal>
    requires { Tables g tables.now × Family g level.now (ends_in tables.now) × Images g.images (below_in tables.now)
        × Rooms g value.old vector.old × (start ≤ g.working) × (first ≤ g.vector)
        × Well (stage_of g level.now tables.now (order_of g tables.now)) × T (good? (rows value.old 0 start)) }
    ensures { ((above : definition.Monomial → definition.Monomial → Comparison) → (k : ℕ)
        × (ended_of (order_of g tables.now) above g.p result value.new vector.new
        ≡ runs (stage_of g level.now tables.now above) (strategy_of g tables.now w) k
        (run_of value.old start vector.old first))) × Ended g result }
{
    let mut n = start;
    let mut v = first;
    // A while: a value falls, and no bound on the steps is known.
    while 0 < n {
        match one_step(value, n, vector, v, level, tables, g, w)? {
            Step::On(x, y) => {
                n = x;
                v = y;
            }
            Step::Stopped(x) => return Ok(Outcome::Stopped(x)),
        }
    }
    Ok(Outcome::Finished(v))
}

// A finished vector descending, in its own place, since the value's may have less room; a value without a reducer descending, in the vector's.
fn sorted(value: &mut [u16], vector: &mut [u16], x: Outcome, tables: &[u16], g: Ground) -> Outcome
    requires { Tables g tables.now × Images g.images (below_in tables.now) × Images g.r (above_in tables.now)
        × Rooms g value.old vector.old × Ended g (Ok x) }
    ensures { (outcome_of (Ok result) vector.new
        ≡ ended_of (order_of g tables.now) (table_order g.code (table_of g.r (above_in tables.now))) g.p (Ok x)
        value.old vector.old) × Ended g (Ok result) }
{
    match x {
        Outcome::Finished(v) => {
            let k = sums::sort_in_place(
                vector,
                v,
                g.code,
                &tables[words::TABLES_ABOVE..],
                g.r,
                g.p,
            );
            Outcome::Finished(k)
        }
        Outcome::Stopped(n) => {
            let k = sums::sort(
                vector,
                value,
                n,
                g.code,
                &tables[words::TABLES_BELOW..],
                g.images,
                g.p,
            );
            Outcome::Stopped(k)
        }
    }
}

// The first products: those of m·f_i.
pub fn started(
    value: &mut [u16],
    level: &[u16],
    tables: &[u16],
    g: Ground,
    drops: bool,
    m: Monomial,
) -> Result<usize, Refusal>
    requires { Tables g tables.now × Family g level.now (ends_in tables.now) × (g.working * row_length ≤ length value.old)
        × (1 ≤ (monomial_of m).1) × ((monomial_of m).1 ≤ g.r) }
    ensures { (added_of result value.new ≡ add_products (reduction_of g tables.now) drops 1 (monomial_of m).0
        (definition.vector_of (family_of g level.now (ends_in tables.now)) (monomial_of m).1) []) × Within g.working result }
{
    let i = usize::from(m.component);
    reduction::add_multiple(value, 0, level, tables, i, 1, m.exponents, g, drops)
}

// The run of the frame term m.
pub fn run(
    value: &mut [u16],
    vector: &mut [u16],
    level: &[u16],
    tables: &[u16],
    g: Ground,
    w: Strategy,
    m: Monomial,
) -> Result<Outcome, Refusal>
    requires { Tables g tables.now × Family g level.now (ends_in tables.now) × Images g.images (below_in tables.now)
        × Images g.r (above_in tables.now) × Rooms g value.old vector.old × (1 ≤ g.vector)
        × Well (stage_of g level.now tables.now (order_of g tables.now)) × (1 ≤ (monomial_of m).1) × ((monomial_of m).1 ≤ g.r) }
    ensures { ((k : ℕ) × (outcome_of result vector.new
        ≡ run_definition (stage_of g level.now tables.now
        (table_order g.code (table_of g.r (above_in tables.now)))) (strategy_of g tables.now w) k (monomial_of m)))
        × Ended g result }
{
    let n = started(value, level, tables, g, w.drops, m)?;
    let t = Term {
        coefficient: 1,
        monomial: m,
    };
    terms::put(vector, 0, t);
    let x = steps(value, n, vector, 1, level, tables, g, w)?;
    Ok(sorted(value, vector, x, tables, g))
}
