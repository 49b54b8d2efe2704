// The call that lifts a level, by division, hybrid or the tree: its tests, and what it leaves in the buffers.
// Exists for: `lift`.
// Knows: crate definitions' Layout; ways::any_way lifts and stores the level.
// A call asks for nothing: a buffer that is too short is 16, words that hold no state are 11.
#![tactic(auto)]

ghost use Rattle.std.specs.Prelude.{◌≡◌, ℕ, ◌≤◌, length};
ghost use Rattle.std.proofs.Math.Option.{some};
ghost use Rattle.definitions.specs.Limits.{document_01};
ghost use Rattle.definitions.specs.Layout.{work_words, lift_call};
ghost use Rattle.definitions.specs.Places.{state_length};
ghost use Rattle.words.specs.refusals.Numbers.{number_of};
ghost use Rattle.ways.specs.any_way.Ways.{way_of};
ghost use Rattle.lift_call.specs.Codes.{coded_way};
ghost use Rattle.lift_call.specs.Lifts.{own_pick?, complete_number, number_in, lift_reply, left_by};

use fetch_call::Reply;
use state::soundness;
use vectors::terms;
use ways::any_way;
use ways::any_way::Way;
use words::refusals::{Refusal, Refused};

// 0 division, 1 hybrid, 2 the tree. Any other code is hybrid with a pick code that there is not: 12.
pub fn way_by(way: u16, pick: u16) -> Way
    ensures { way_of result ≡ coded_way way pick }
{
    match way {
        0 => Way::Division,
        1 => Way::Hybrid(pick),
        2 => Way::Tree,
        _ => Way::Hybrid(0),
    }
}

pub fn work_length(way: Way) -> usize
    ensures { result ≡ work_words document_01 (way_of way) }
{
    match way {
        Way::Division => words::VALUE_LENGTH,
        Way::Hybrid(_pick) => words::LEAST_TERMS * words::ROW_LENGTH,
        Way::Tree => words::TREE_LENGTH,
    }
}

// "for the hybrid way pick code outside 1..3"
pub fn own_pick(way: Way) -> bool
    ensures { result ≡ own_pick? (way_of way) }
{
    match way {
        Way::Hybrid(pick) => words::between(1, pick, 3),
        Way::Division | Way::Tree => true,
    }
}

// 11 for words that hold no state with the levels below k, 12 for a level or a pick code that there is not.
pub fn complete(state: &[u16], k: usize, way: Way) -> Result<(), Refusal>
    requires { state_length ≤ length state.now }
    ensures { number_in result ≡ complete_number state.now k (way_of way) }
{
    if !soundness::sound(state) {
        return Err(Refusal::State);
    }
    if !fetch_call::level_number(k) {
        return Err(Refusal::Index);
    }
    if words::place(state[4]) < k {
        return Err(Refusal::State);
    }
    if !own_pick(way) {
        return Err(Refusal::Index);
    }
    Ok(())
}

fn refused(refusal: Refusal, place: usize) -> Reply
    ensures { (result.number ≡ number_of refusal) × (result.place ≡ place) }
{
    Reply::of(Err(Refused { refusal, place }))
}

// "the state is empty and each buffer lent for writing is zeroed" after a refusal; else the state stays.
fn settle(
    state: &mut [u16],
    work: &mut [u16],
    cache: &mut [u16],
    k: usize,
    lifted: Result<(), Refusal>,
) -> Reply
    ensures { lift_reply result state.new work.new cache.new
        ≡ left_by (number_in lifted) k state.old work.old cache.old }
{
    terms::clear(work, 0);
    terms::clear(cache, 0);
    let Err(refusal) = lifted else {
        return Reply::of(Ok(()));
    };
    terms::clear(state, 0);
    refused(refusal, k)
}

// "form the frame of level k and lift all its terms, in number order, by one of three ways"
pub fn lift(state: &mut [u16], work: &mut [u16], cache: &mut [u16], k: usize, way: Way) -> Reply
    ensures { (n : ℕ) × (some (lift_reply result state.new work.new cache.new)
        ≡ lift_call document_01 n k (way_of way) state.old work.old cache.old) }
{
    if state.len() < words::STATE_LENGTH || work.len() < work_length(way) {
        return refused(Refusal::Buffer, 0);
    }
    if let Err(refusal) = complete(state, k, way) {
        return refused(refusal, 0);
    }
    let lifted = any_way::lift_by(state, work, cache, k, way);
    settle(state, work, cache, k, lifted)
}
