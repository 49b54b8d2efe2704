// Division with a remainder: a loop of steps, with no bound on them but the falling number of crate ending.
// Knows: crate definitions' Membership.
// Value, quotients and remainder are rows from row 0 of three lent slices.
ghost use Rattle.std.specs.Prelude.{◌≡◌, ℕ, ◌*◌, ◌≤◌, ◌<◌, T, length};
ghost use Rattle.definitions.specs.Monomial as definition;
ghost use Rattle.definitions.specs.Order.{Comparison};
ghost use Rattle.definitions.specs.Run.{greatest};
ghost use Rattle.definitions.specs.Stage.{Stage};
ghost use Rattle.definitions.specs.Membership.{divided as divided_definition, moved as moved_definition, divide as divide_definition};
ghost use Rattle.definitions.specs.Packed.{unpack};
ghost use Rattle.definitions.specs.Layout.{Words, rows};
ghost use Rattle.definitions.specs.Places.{row_length};
ghost use Rattle.ending.specs.Good.{good?};
ghost use Rattle.ending.specs.Well.{Well};
ghost use Rattle.vectors.specs.terms.Rows.{term_of};
ghost use Rattle.runs.specs.reduction.Grounds.{ends_in, below_in, Tables, Family};
ghost use Rattle.runs.specs.run.Stages.{order_of, stage_of, Images};
ghost use Rattle.dividing.specs.steps.Divisions.{division_of, step_as, Room, stepped, divided_as, Rooms, Left};

use monomial::Monomial;
use runs::reduction;
use runs::reduction::Ground;
use vectors::terms;
use vectors::terms::Term;
use words::refusals::Refusal;

// How many rows quotients and remainder have.
#[derive(Clone, Copy)]
pub struct Divided {
    pub quotients: usize,
    pub remainder: usize,
}

// The multiple c·q·f_j into the quotients, then taken away from the value: the rows of value, quotients and remainder.
fn taken_away(
    value: &mut [u16],
    n: usize,
    quotients: &mut [u16],
    v: usize,
    r: usize,
    level: &[u16],
    tables: &[u16],
    g: Ground,
    j: usize,
    c: u16,
    q: u64,
) -> Result<(usize, usize, usize), Refusal>
    requires { Tables g tables.now × Family g level.now (ends_in tables.now) × (g.working * row_length ≤ length value.old)
        × (g.vector * row_length ≤ length quotients.old) × (n ≤ g.working) × (v ≤ g.vector) × (r ≤ g.working) × (1 ≤ j) × (j ≤ g.r) }
    ensures { ((above : definition.Monomial → definition.Monomial → Comparison) (w : Words)
        → step_as result value.new quotients.new w
        ≡ divided_definition (stage_of g level.now tables.now above)
        (division_of value.old n quotients.old v w r) j c (unpack q)) × Room g result }
{
    let t = Term {
        coefficient: c,
        monomial: Monomial {
            exponents: q,
            component: j as u16,
        },
    };
    let k = reduction::store_term(quotients, v, g.vector, g.p, t)?;
    let d = field::negative(c, g.p);
    let m = reduction::add_multiple(value, n, level, tables, j, d, q, g, false)?;
    Ok((m, k, r))
}

// The term at place i goes from the value to the remainder, if that has room.
fn moved(
    value: &mut [u16],
    n: usize,
    v: usize,
    remainder: &mut [u16],
    r: usize,
    g: Ground,
    i: usize,
    t: Term,
) -> Result<(usize, usize, usize), Refusal>
    requires { (i < n) × (n ≤ g.working) × (v ≤ g.vector) × (r ≤ g.working) × (g.working * row_length ≤ length value.old)
        × (g.working * row_length ≤ length remainder.old) }
    ensures { ((S : Stage) → S.reduction.limits.working ≡ g.working → (w : Words)
        → step_as result value.new w remainder.new
        ≡ moved_definition S (division_of value.old n w v remainder.old r) i (term_of t)) × Room g result }
{
    if r == g.working {
        return Err(Refusal::Terms);
    }
    terms::put(remainder, r, t);
    terms::remove(value, n, i);
    Ok((n - 1, v, r + 1))
}

// One step; the value is not empty.
fn one_step(
    value: &mut [u16],
    n: usize,
    quotients: &mut [u16],
    v: usize,
    remainder: &mut [u16],
    r: usize,
    level: &[u16],
    tables: &[u16],
    g: Ground,
) -> Result<(usize, usize, usize), Refusal>
    requires { Tables g tables.now × Family g level.now (ends_in tables.now) × Images g.images (below_in tables.now)
        × Rooms g value.old quotients.old remainder.old × (0 < n) × (n ≤ g.working) × (v ≤ g.vector) × (r ≤ g.working) }
    ensures { ((above : definition.Monomial → definition.Monomial → Comparison)
        → step_as result value.new quotients.new remainder.new
        ≡ stepped (stage_of g level.now tables.now above)
        (division_of value.old n quotients.old v remainder.old r)
        (greatest (order_of g tables.now) (rows value.old 0 n))) × Room g result }
{
    let i = reduction::pick(value, n, 1, tables, g);
    let t = terms::row(value, i);
    let Some(x) = reduction::reducer_of(tables, g, t) else {
        return moved(value, n, v, remainder, r, g, i, t);
    };
    taken_away(
        value,
        n,
        quotients,
        v,
        r,
        level,
        tables,
        g,
        x.number,
        x.coefficient,
        x.quotient,
    )
}

// Steps until nothing is left to be divided.
pub fn divide(
    value: &mut [u16],
    start: usize,
    quotients: &mut [u16],
    remainder: &mut [u16],
    level: &[u16],
    tables: &[u16],
    g: Ground,
) -> Result<Divided, Refusal>
    requires { Tables g tables.now × Family g level.now (ends_in tables.now) × Images g.images (below_in tables.now)
        × Rooms g value.old quotients.old remainder.old × (start ≤ g.working) × (1 ≤ g.vector)
        × Well (stage_of g level.now tables.now (order_of g tables.now)) × T (good? (rows value.old 0 start)) }
    ensures { ((above : definition.Monomial → definition.Monomial → Comparison) → (k : ℕ)
        × (divided_as result quotients.new remainder.new
        ≡ divide_definition (stage_of g level.now tables.now above) k
        (division_of value.old start quotients.old 0 remainder.old 0))) × Left g result }
{
    let mut n = start;
    let mut v: usize = 0;
    let mut r: usize = 0;
    // A while: a step leaves any number of rows.
    while 0 < n {
        (n, v, r) = one_step(value, n, quotients, v, remainder, r, level, tables, g)?;
    }
    Ok(Divided {
        quotients: v,
        remainder: r,
    })
}
