// A vector of the level over a sound state by a log.
// Knows: crate definitions' Replay over a state's words.
// Tables and frame are arrays of these functions' own frames, made once a call.
ghost use Rattle.std.specs.Prelude.{◌≡◌, ◌+◌, ◌*◌, ◌≤◌, ◌<◌, length, get_or, drop};
ghost use Rattle.definitions.specs.Limits.{document_01};
ghost use Rattle.definitions.specs.Problem.{lines};
ghost use Rattle.definitions.specs.Replay.{replayed_vector};
ghost use Rattle.definitions.specs.Places.{most_picks};
ghost use Rattle.definitions.specs.Layout.{decode};
ghost use Rattle.definitions.specs.Places.{most_levels, read_length, row_length, value_length, vector_length};
ghost use Rattle.monomial.specs.Values.{monomial_of};
ghost use Rattle.orders.specs.Images.{table_of, table_order};
ghost use Rattle.state.specs.soundness.Places.{count_at};
ghost use Rattle.runs.specs.reduction.Grounds.{ends_in, above_in, Tables, Family};
ghost use Rattle.runs.specs.run.Stages.{stage_of, Images, Rooms};
ghost use Rattle.level.specs.by_runs.Stages.{Base, TablesAt, usual, stage_at};
ghost use Rattle.replaying.specs.log.Lines.{Ended};
ghost use Rattle.replaying.specs.over.Vectors.{vector_as, replay_term, Few};

use crate::log;
use level::by_runs;
use monomial::Monomial;
use runs::reduction::Ground;
use runs::run;
use state::soundness;
use vectors::terms::Term;
use vectors::{sums, terms};
use words::refusals::{Refusal, Refused};

// The frame term m of level k, by the P lines from a position on, the first with this number.
fn replay_term(
    value: &mut [u16],
    vector: &mut [u16],
    input: &[u8],
    from: usize,
    first: usize,
    n: usize,
    k: usize,
    level: &[u16],
    tables: &[u16],
    g: Ground,
    m: Monomial,
) -> Result<usize, Refused>
    requires { Tables g tables.now × Family g level.now (ends_in tables.now) × Images g.r (above_in tables.now)
        × Rooms g value.old vector.old × (1 ≤ g.vector) × (1 ≤ (monomial_of m).1) × ((monomial_of m).1 ≤ g.r) × (n ≤ 8) × (first ≤ read_length + 1) }
    ensures { (vector_as result vector.new ≡ replay_term (stage_of g level.now tables.now
        (table_order g.code (table_of g.r (above_in tables.now)))) n k first (monomial_of m) (lines (drop from input.now)))
        × Ended g result }
{
    let s = match run::started(value, level, tables, g, true, m) {
        Ok(s) => s,
        Err(refusal) => return Err(Refused { refusal, place: k }),
    };
    let t = Term {
        coefficient: 1,
        monomial: m,
    };
    terms::put(vector, 0, t);
    let u = log::replay_lines(
        input, from, first, n, k, value, s, vector, 1, level, tables, g,
    )?;
    // descending, in its own place
    let above = &tables[words::TABLES_ABOVE..];
    let rows = sums::sort_in_place(vector, u, g.code, above, g.r, g.p);
    Ok(rows)
}

// .. with the ground and the rows of a state's level j, for level j + 1.
fn replay_over(
    value: &mut [u16],
    vector: &mut [u16],
    input: &[u8],
    from: usize,
    first: usize,
    state: &[u16],
    j: usize,
    tables: &[u16],
    m: Monomial,
) -> Result<usize, Refused>
    requires { Base state.now j × TablesAt state.now j tables.now × (value_length ≤ length value.old) × (vector_length ≤ length vector.old)
        × (1 ≤ (monomial_of m).1) × ((monomial_of m).1 ≤ count_at state.now j) × (first ≤ read_length + 1) }
    ensures { (vector_as result vector.new ≡ replay_term (stage_at usual state.now j) (get_or state.now 1 0) (j + 1) first
        (monomial_of m) (lines (drop from input.now))) × Few result }
{
    let g = by_runs::ground_of(state, j, by_runs::usual());
    let n = words::place(state[1]);
    let start = words::ROWS_START + j * words::LEVEL_LENGTH;
    replay_term(
        value,
        vector,
        input,
        from,
        first,
        n,
        j + 1,
        &state[start..],
        tables,
        g,
        m,
    )
}

// Vector v of level j + 1, the frame formed first: 15 there, 12 at the L line, which stands before the lines.
fn replay_with(
    value: &mut [u16],
    vector: &mut [u16],
    input: &[u8],
    from: usize,
    place: usize,
    state: &[u16],
    j: usize,
    v: usize,
    tables: &[u16],
) -> Result<usize, Refused>
    requires { Base state.now j × TablesAt state.now j tables.now × (value_length ≤ length value.old) × (vector_length ≤ length vector.old)
        × (get_or state.now 4 0 ≡ j + 1) × (place ≤ read_length) }
    ensures { (vector_as result vector.new ≡ replayed_vector document_01 most_picks place (j + 1) v (lines (drop from input.now))
        (decode document_01 state.now)) × Few result }
{
    let mut framed = [0u16; words::HEADS_LENGTH];
    let mut gens = [0u16; words::HEADS_LENGTH];
    let r = soundness::count_of(state, j);
    // numbered by code 1, the lexicographic order, whatever the file's (A10)
    let Some(count) = frame::form(&mut framed, words::MOST_VECTORS, &mut gens, tables, r, 1) else {
        return Err(Refused {
            refusal: Refusal::Level,
            place: j + 1,
        });
    };
    if v == 0 || count < v {
        return Err(Refused {
            refusal: Refusal::Index,
            place,
        });
    }
    let t = terms::row(&framed, v - 1);
    replay_over(
        value,
        vector,
        input,
        from,
        place + 1,
        state,
        j,
        tables,
        t.monomial,
    )
}

// Vector v of level j + 1 by the P lines from a position on; the L line before them has this number.
pub fn replay_vector(
    value: &mut [u16],
    vector: &mut [u16],
    input: &[u8],
    from: usize,
    place: usize,
    state: &[u16],
    j: usize,
    v: usize,
) -> Result<usize, Refused>
    requires { Base state.now j × (value_length ≤ length value.old) × (vector_length ≤ length vector.old) × (get_or state.now 4 0 ≡ j + 1)
        × (place ≤ read_length) }
    ensures { (vector_as result vector.new ≡ replayed_vector document_01 most_picks place (j + 1) v (lines (drop from input.now))
        (decode document_01 state.now)) × Few result }
{
    let mut tables = [0u16; words::TABLES_LENGTH];
    by_runs::make_tables(&mut tables, state, j);
    replay_with(value, vector, input, from, place, state, j, v, &tables)
}
