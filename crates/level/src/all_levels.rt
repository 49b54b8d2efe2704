// All levels of an accepted basis, as the sheet and other programs lift them; one level lifted and stored.
// Knows: crate definitions' Calls, through by_runs and level::storing.
// The state is sound, so that nothing is tested again and nothing is zeroed between levels.
ghost use Rattle.std.specs.Prelude.{◌≡◌, [], ◌*◌, ◌≤◌, length, Ok};
ghost use Rattle.level.specs.by_runs.Stages.{Base, leveled_of};
ghost use Rattle.level.specs.all_levels.Level.{
  Liftable,
  Chosen,
  way_by,
  Settles,
  state_over,
  stored,
  told,
  LiftedBy,
  KeptAs,
  LiftedNext,
  Reached,
};
ghost use Rattle.definitions.specs.Places.{row_length, value_length, lifted_length};

use crate::by_runs::Leveled;
use crate::{by_runs, storing};
use runs::run::Strategy;
use state::soundness;
use words::refusals::{Refusal, Refused};

// A level that was lifted is stored as level k.
fn store_lifted(state: &mut [u16], k: usize, x: Leveled, out: &[u16]) -> Result<(), Refusal>
    requires { Liftable state.old k × Settles state.old k (Ok x) out.now }
    ensures { told result state.new ≡ stored state.old (state_over state.old k (leveled_of (Ok x) out.now [])) }
{
    let Leveled::Vectors(n, _used) = x else {
        // Lifting never stops at a value without a reducer: the proof shows that this is not reached.
        return Err(Refusal::NoReducer);
    };
    storing::store_level(state, k, n, out);
    Ok(())
}

// What lifting gave: a level is stored as level k, a refusal is handed on and changes nothing.
pub fn store(
    state: &mut [u16],
    k: usize,
    x: Result<Leveled, Refusal>,
    out: &[u16],
) -> Result<(), Refusal>
    requires { Liftable state.old k × Settles state.old k x out.now }
    ensures { told result state.new ≡ stored state.old (state_over state.old k (leveled_of x out.now [])) }
{
    match x {
        Ok(lifted) => store_lifted(state, k, lifted, out),
        Err(refusal) => Err(refusal),
    }
}

// Level k by division or hybrid, with room for so many terms in a working value; out is for the level while it is made.
pub fn lift_level(
    state: &mut [u16],
    work: &mut [u16],
    out: &mut [u16],
    k: usize,
    w: Strategy,
    working: usize,
) -> Result<(), Refusal>
    requires { Liftable state.old k × (working * row_length ≤ length work.old) × Chosen w working × (lifted_length ≤ length out.old) }
    ensures { LiftedBy state.old k (way_by w working) result state.new }
{
    let b = by_runs::with_working(working);
    let x = by_runs::lift_level(out, work, state, k - 1, w, b);
    store(state, k, x, out)
}

// A level stored without zeroing: unused places stay as they are.
fn keep(state: &mut [u16], k: usize, x: Leveled, out: &[u16]) -> Result<(), Refusal>
    requires { Liftable state.old k × Settles state.old k (Ok x) out.now }
    ensures { KeptAs state.old k x out.now result state.new }
{
    let Leveled::Vectors(n, _used) = x else {
        // not reached, as above
        return Err(Refusal::NoReducer);
    };
    storing::add_level(state, k, n, out);
    Ok(())
}

// Level k by hybrid with pick code 2.
pub fn lift_next(state: &mut [u16], work: &mut [u16], k: usize) -> Result<(), Refusal>
    requires { Liftable state.old k × (value_length ≤ length work.old) }
    ensures { LiftedNext state.old k result state.new }
{
    let mut out = [0u16; words::LIFTED_LENGTH];
    let b = by_runs::usual();
    let w = Strategy {
        drops: true,
        pick: 2,
        stops: false,
    };
    let x = by_runs::lift_level(&mut out, work, state, k - 1, w, b)?;
    keep(state, k, x, &out)
}

// "Levels 1 on, hybrid, pick code 2, until a count is 0 or level 9 is printed"; where one is refused, those below it stay.
pub fn lift_levels(state: &mut [u16], work: &mut [u16]) -> Result<(), Refused>
    requires { Base state.old 0 × (value_length ≤ length work.old) }
    ensures { Reached state.old result state.new × Base state.new 0 }
{
    for k in 1..words::ALL_LEVELS {
        if let Err(refusal) = lift_next(state, work, k) {
            return Err(Refused { refusal, place: k });
        }
        if soundness::count_of(state, k) == 0 {
            return Ok(());
        }
    }
    Ok(())
}
