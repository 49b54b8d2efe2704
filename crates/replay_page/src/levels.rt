// The levels below the one that a log is about.
// Knows: crate definitions' Replay, through crate level.
ghost use Rattle.std.specs.Prelude.{◌≡◌, ◌≤◌, length, get_or};
ghost use Rattle.definitions.specs.Places.{most_levels, value_length};
ghost use Rattle.level.specs.by_runs.Stages.{Base};
ghost use Rattle.replay_page.specs.levels.Below.{LiftedBelow};

use level::all_levels;
use words::refusals::Refused;

// "Levels below, empty ones too, are lifted as for the sheet": levels 1 to k − 1 of an accepted basis.
pub fn lift_below(state: &mut [u16], work: &mut [u16], k: usize) -> Result<(), Refused>
    requires { Base state.old 0 × (get_or state.old 4 0 ≡ 1) × (1 ≤ k) × (k ≤ most_levels) × (value_length ≤ length work.old) }
    ensures { LiftedBelow state.old k result state.new }
{
    for i in 1..k {
        if let Err(refusal) = all_levels::lift_next(state, work, i) {
            return Err(Refused { refusal, place: i });
        }
    }
    Ok(())
}
