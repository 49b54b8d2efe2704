// One pick of a log: the monomial that the numbers of a P line name, its place in the working value, the step there.
// Knows: crate definitions' Replay.
ghost use Rattle.std.specs.Prelude.{◌≡◌, ◌*◌, ◌≤◌, length};
ghost use Rattle.definitions.specs.Monomial as definition;
ghost use Rattle.definitions.specs.Order.{Comparison};
ghost use Rattle.definitions.specs.Replay.{place_from, replayed};
ghost use Rattle.definitions.specs.Layout.{rows};
ghost use Rattle.definitions.specs.Places.{row_length};
ghost use Rattle.vectors.specs.sums.Places.{seek};
ghost use Rattle.reader.specs.lines.Tests.{term_in};
ghost use Rattle.runs.specs.reduction.Grounds.{ends_in, Tables, Family};
ghost use Rattle.runs.specs.run.Stages.{stage_of, run_of, Rooms};
ghost use Rattle.replaying.specs.picks.Named.{named, picked_as, Room};

use reader::lines;
use runs::reduction::Ground;
use runs::run;
use runs::run::{Step, Strategy};
use vectors::sums;
use words::refusals::{Refusal, Refused};

// The numbers of a P line as those of a T line, where the component stands before the exponents; coefficient 1.
fn as_term(v: [u16; 16], n: usize) -> [u16; 16]
    requires { n ≤ 8 }
    ensures { term_in result ≡ (1, named n v) }
{
    let component = v[n];
    let mut e = v;
    e[n] = 0;
    [
        0, 1, component, e[0], e[1], e[2], e[3], e[4], e[5], e[6], e[7], 0, 0, 0, 0, 0,
    ]
}

// Where the term that the numbers name stands. An exponent above 255 has none.
fn place_of(value: &[u16], m: usize, v: [u16; 16], n: usize) -> Option<usize>
    requires { (n ≤ 8) × (m * row_length ≤ length value.now) }
    ensures { result ≡ seek (named n v) (rows value.now 0 m) 0 }
{
    let w = as_term(v, n);
    if !lines::fits(lines::exponents(w)) {
        return None;
    }
    let t = lines::term_said(w);
    sums::find(value, m, t.monomial)
}

// The step at the term that the numbers name, and then the rows of value and vector: 22 at the line where there is none, a refusal of the step with the
// level as its place.
pub fn replay_pick(
    value: &mut [u16],
    m: usize,
    vector: &mut [u16],
    u: usize,
    level: &[u16],
    tables: &[u16],
    g: Ground,
    v: [u16; 16],
    n: usize,
    k: usize,
    place: usize,
) -> Result<(usize, usize), Refused>
    requires { Tables g tables.now × Family g level.now (ends_in tables.now) × Rooms g value.old vector.old × (m ≤ g.working)
        × (u ≤ g.vector) × (n ≤ 8) }
    ensures { ((above : definition.Monomial → definition.Monomial → Comparison)
        → picked_as result value.new vector.new ≡ replayed (stage_of g level.now tables.now above) k place
        (run_of value.old m vector.old u) (place_from (named n v) 0 (rows value.old 0 m))) × Room g result }
{
    let Some(i) = place_of(value, m, v, n) else {
        return Err(Refused {
            refusal: Refusal::Pick,
            place,
        });
    };
    let w = Strategy {
        drops: true,
        pick: 2,
        stops: false,
    };
    match run::step_at(value, m, vector, u, level, tables, g, w, i) {
        Ok(Step::On(a, b)) => Ok((a, b)),
        // Lifting never stops at a value without a reducer: the proof shows that this is not reached.
        Ok(Step::Stopped(_a)) => Err(Refused {
            refusal: Refusal::NoReducer,
            place: k,
        }),
        Err(refusal) => Err(Refused { refusal, place: k }),
    }
}
