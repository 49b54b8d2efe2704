// A vector divided by the elements of a sound state.
// Knows: crate definitions' Membership over a state's words.
// The tables are an array of these functions' own frames, made once a call.
ghost use Rattle.std.specs.Prelude.{◌≡◌, ℕ, ◌*◌, ◌≤◌, T, length, Ok};
ghost use Rattle.definitions.specs.Layout.{Words, rows};
ghost use Rattle.definitions.specs.Places.{most_terms, row_length, value_length, vector_length};
ghost use Rattle.ending.specs.Good.{good?};
ghost use Rattle.orders.specs.Images.{table_of, table_order};
ghost use Rattle.runs.specs.reduction.Grounds.{above_in, Tables};
ghost use Rattle.runs.specs.run.Stages.{Images};
ghost use Rattle.level.specs.by_runs.Stages.{Base, TablesAt};
ghost use Rattle.dividing.specs.steps.Divisions.{divided_as, Left};
ghost use Rattle.dividing.specs.over.Parts.{parts_as, sorted_parts, divided_over, Few};

use crate::steps;
use crate::steps::Divided;
use level::by_runs;
use runs::reduction::Ground;
use vectors::sums;
use words::refusals::Refusal;

// The quotients descending, in their own place.
fn sorted(quotients: &mut [u16], x: Divided, tables: &[u16], g: Ground) -> Divided
    requires { Tables g tables.now × Images g.r (above_in tables.now) × (g.vector * row_length ≤ length quotients.old) × Left g (Ok x) }
    ensures { ((w : Words) → parts_as (Ok result) quotients.new w ≡ sorted_parts
        (table_order g.code (table_of g.r (above_in tables.now))) g.p (divided_as (Ok x) quotients.old w)) × Left g (Ok result) }
{
    let k = sums::sort_in_place(
        quotients,
        x.quotients,
        g.code,
        &tables[words::TABLES_ABOVE..],
        g.r,
        g.p,
    );
    Divided {
        quotients: k,
        remainder: x.remainder,
    }
}

// With the tables of level 0.
fn divide_with(
    value: &mut [u16],
    n: usize,
    quotients: &mut [u16],
    remainder: &mut [u16],
    state: &[u16],
    tables: &[u16],
) -> Result<Divided, Refusal>
    requires { Base state.now 0 × TablesAt state.now 0 tables.now × (value_length ≤ length value.old)
        × (vector_length ≤ length quotients.old) × (value_length ≤ length remainder.old) × (n ≤ most_terms) × T (good? (rows value.old 0 n)) }
    ensures { ((k : ℕ) × (parts_as result quotients.new remainder.new
        ≡ divided_over state.now k (rows value.old 0 n))) × Few result }
{
    let g = by_runs::ground_of(state, 0, by_runs::usual());
    let x = steps::divide(
        value,
        n,
        quotients,
        remainder,
        &state[words::ROWS_START..],
        tables,
        g,
    )?;
    Ok(sorted(quotients, x, tables, g))
}

// The first n rows of value divided by the elements of a state: the quotients descending, the remainder.
pub fn divide_vector(
    value: &mut [u16],
    n: usize,
    quotients: &mut [u16],
    remainder: &mut [u16],
    state: &[u16],
) -> Result<Divided, Refusal>
    requires { Base state.now 0 × (value_length ≤ length value.old) × (vector_length ≤ length quotients.old)
        × (value_length ≤ length remainder.old) × (n ≤ most_terms) × T (good? (rows value.old 0 n)) }
    ensures { ((k : ℕ) × (parts_as result quotients.new remainder.new
        ≡ divided_over state.now k (rows value.old 0 n))) × Few result }
{
    let mut tables = [0u16; words::TABLES_LENGTH];
    by_runs::make_tables(&mut tables, state, 0);
    divide_with(value, n, quotients, remainder, state, &tables)
}
