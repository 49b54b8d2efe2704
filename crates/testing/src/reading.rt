// The reader for programs in other languages: its tests against the unrelated implementation call it through this function.
// Knows: reader::problem's `read`, and 16.
// No code of the engine calls it.
ghost use Rattle.std.specs.Prelude.{◌≡◌};
ghost use Rattle.testing.specs.Reader.{called};

use reader::problem;

// Reads a file into a state of any length; answers the number and stores the place. The state is read, not accepted.
pub fn reader_read(file: &[u8], state: &mut [u16], place: &mut usize) -> u16
    ensures { (result, place.new, state.new) ≡ called file.now state.old }
{
    *place = 0;
    if state.len() < words::STATE_LENGTH {
        return 16;
    }
    let Err(refused) = problem::read(file, state) else {
        return 0;
    };
    *place = refused.place;
    refused.refusal.number()
}
