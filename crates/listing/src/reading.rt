// What every program begins with: a file is read and its basis accepted, or the refusal is printed.
// Knows: crate definitions' Calls and Sheet.
// Nothing is zeroed. What follows acceptance is the caller's.
ghost use Rattle.std.specs.Prelude.{◌≡◌, ◌+◌, ◌*◌, ◌≤◌, length, get_or};
ghost use Rattle.definitions.specs.Places.{most_terms, state_length, value_length, w_line_length, pair_line_length};
ghost use Rattle.level.specs.by_runs.Stages.{Base};
ghost use Rattle.listing.specs.reading.Beginning.{AcceptedAs, BegunAs};

use crate::printing;
use level::by_runs;
use reader::problem;
use runs::frame_terms::Accepted;
use words::refusals::{Refusal, Refused};

// A file that was read: accepted, or refused in so many bytes.
fn accept(out: &mut [u8], state: &[u16], work: &mut [u16]) -> Result<(), usize>
    requires { Base state.now 0 × (value_length ≤ length work.old) × (pair_line_length + most_terms * w_line_length ≤ length out.old) }
    ensures { AcceptedAs result state.now out.old out.new }
{
    match by_runs::accept_level(work, state) {
        Ok(Accepted::Yes) => Ok(()),
        Ok(Accepted::Stopped(place, m)) => {
            let n = words::place(state[1]);
            let refused = Refused {
                refusal: Refusal::NoReducer,
                place,
            };
            let a = printing::x_line(out, 0, refused);
            Err(printing::w_lines(out, a, work, m, n))
        }
        Err(refused) => Err(printing::x_line(out, 0, refused)),
    }
}

// A file's basis, accepted in the state; or so many bytes in front of out are "`X,number,place`", and after X,9 the value.
pub fn begin(file: &[u8], state: &mut [u16], work: &mut [u16], out: &mut [u8]) -> Result<(), usize>
    requires { (state_length ≤ length state.old) × (value_length ≤ length work.old)
        × (pair_line_length + most_terms * w_line_length ≤ length out.old) }
    ensures { BegunAs result file.now state.new out.old out.new }
{
    if let Err(refused) = problem::read(file, state) {
        return Err(printing::x_line(out, 0, refused));
    }
    accept(out, state, work)
}
