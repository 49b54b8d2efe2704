// The call that reads a file and accepts or refuses its basis.
// Exists for: `read`.
// Knows: crate definitions' Layout.
// A call asks for nothing: a buffer that is too short is 16.
#![tactic(auto)]

ghost use Rattle.std.specs.Prelude.{◌≡◌, ℕ, ◌≤◌, T, length};
ghost use Rattle.std.proofs.Math.Option.{some};
ghost use Rattle.definitions.specs.Limits.{document_01};
ghost use Rattle.definitions.specs.Result.{finished?};
ghost use Rattle.definitions.specs.Calls.{read as read_definition};
ghost use Rattle.definitions.specs.Layout.{encode, decode, read_call};
ghost use Rattle.definitions.specs.Places.{state_length, value_length};
ghost use Rattle.level.specs.by_runs.Stages.{Base, accepted_over};
ghost use Rattle.read_call.specs.Replies.{read_reply, read_said, settled_words, accepted_words};

use fetch_call::Reply;
use level::by_runs;
use reader::problem;
use runs::frame_terms::Accepted;
use vectors::terms;
use words::refusals::{Refusal, Refused};

// The basis that was just read, accepted or refused.
fn accept(state: &mut [u16], work: &mut [u16]) -> Result<(), Refused>
    requires { Base state.old 0 × (state.old ≡ encode document_01 (length state.old) (decode document_01 state.old))
        × (value_length ≤ length work.old) }
    ensures { (n : ℕ) × (read_said result state.new work.new
        ≡ accepted_words n state.old (length work.old)) × T (finished? (accepted_over state.old n)) }
{
    match by_runs::accept_level(work, state) {
        Ok(Accepted::Yes) => {
            terms::clear(work, 0);
            Ok(())
        }
        Ok(Accepted::Stopped(place, _n)) => {
            terms::clear(state, 0);
            Err(Refused {
                refusal: Refusal::NoReducer,
                place,
            })
        }
        Err(refused) => {
            terms::clear(state, 0);
            terms::clear(work, 0);
            Err(refused)
        }
    }
}

// Buffers long enough.
fn read_file(file: &[u8], state: &mut [u16], work: &mut [u16]) -> Result<(), Refused>
    requires { (state_length ≤ length state.old) × (value_length ≤ length work.old) }
    ensures { (n : ℕ) × (read_said result state.new work.new
        ≡ settled_words (length state.old) (length work.old) (read_definition document_01 n file.now))
        × T (finished? (read_definition document_01 n file.now)) }
{
    if let Err(refused) = problem::read(file, state) {
        terms::clear(work, 0);
        return Err(refused);
    }
    accept(state, work)
}

// "read a file and accept or refuse its basis"
pub fn read(file: &[u8], state: &mut [u16], work: &mut [u16]) -> Reply
    ensures { (n : ℕ) × (some (read_reply result state.new work.new)
        ≡ read_call document_01 n file.now state.old work.old) }
{
    if state.len() < words::STATE_LENGTH || work.len() < words::VALUE_LENGTH {
        return Reply::of(Err(Refused {
            refusal: Refusal::Buffer,
            place: 0,
        }));
    }
    Reply::of(read_file(file, state, work))
}
