// The soundness test for programs in other languages: its tests against the unrelated implementation call it through this function.
// Knows: state::soundness' `sound`, and 16.
// No code of the engine calls it.
ghost use Rattle.std.specs.Prelude.{◌≡◌};
ghost use Rattle.testing.specs.Soundness.{number_of};

use state::soundness;

// 16 for a state that is too short, 11 for one that counts as no accepted basis, 0 for any other.
pub fn soundness_number(state: &[u16]) -> u16
    ensures { result ≡ number_of state.now }
{
    if state.len() < words::STATE_LENGTH {
        return 16;
    }
    if soundness::sound(state) {
        return 0;
    }
    11
}
