// The call that fetches a vector; what every call returns.
// Exists for: `fetch`; `Reply` and `level_number` for the other calls.
// Knows: crate definitions' Layout.
// A call asks for nothing: a buffer that is too short is 16, words that hold no state are 11.
#![tactic(auto)]

ghost use Rattle.std.specs.Prelude.{◌≡◌, ◌≤◌, ◌<◌, length};
ghost use Rattle.definitions.specs.Limits.{document_01};
ghost use Rattle.definitions.specs.Lists.{between};
ghost use Rattle.definitions.specs.Layout.{fetch_call};
ghost use Rattle.definitions.specs.Places.{most_levels, all_levels, state_length};
ghost use Rattle.state.specs.soundness.Places.{count_at};
ghost use Rattle.fetch_call.specs.Replies.{fetch_reply, fetch_said, settled_of};

use state::{soundness, writing};
use words::refusals::{Refusal, Refused};

// The refusal's number and place; 0 and 0 where the call succeeded. C gets the number, and the place behind a pointer.
#[derive(Clone, Copy)]
pub struct Reply {
    pub number: u16,
    pub place: usize,
}

impl Reply {
    // What a call answers.
    pub fn of(settled: Result<(), Refused>) -> Reply
        ensures { (result.number, result.place) ≡ settled_of settled }
    {
        match settled {
            Ok(()) => Reply {
                number: 0,
                place: 0,
            },
            Err(refused) => Reply {
                number: refused.refusal.number(),
                place: refused.place,
            },
        }
    }
}

pub fn level_number(k: usize) -> bool
    ensures { result ≡ between 1 k most_levels }
{
    1 <= k && k <= words::MOST_LEVELS
}

fn vector_number(state: &[u16], k: usize, v: usize) -> bool
    requires { (state_length ≤ length state.now) × (k < all_levels) }
    ensures { result ≡ between 1 v (count_at state.now k) }
{
    1 <= v && v <= soundness::count_of(state, k)
}

fn fetched(state: &[u16], out: &mut [u16], k: usize, v: usize) -> Result<(), Refusal>
    ensures { fetch_said result out.new ≡ fetch_call document_01 k v state.now out.old }
{
    if state.len() < words::STATE_LENGTH || out.len() < words::VECTOR_LENGTH {
        return Err(Refusal::Buffer);
    }
    if !soundness::sound(state) {
        return Err(Refusal::State);
    }
    if !level_number(k) {
        return Err(Refusal::Index);
    }
    let height = usize::from(state[4]);
    if height <= k {
        return Err(Refusal::State);
    }
    if !vector_number(state, k, v) {
        return Err(Refusal::Index);
    }
    writing::fetch_rows(out, state, k, v);
    Ok(())
}

// "fetch vector v of level k"
pub fn fetch(state: &[u16], out: &mut [u16], k: usize, v: usize) -> Reply
    ensures { fetch_reply result out.new ≡ fetch_call document_01 k v state.now out.old }
{
    Reply::of(fetched(state, out, k, v).map_err(|refusal| Refused { refusal, place: 0 }))
}
