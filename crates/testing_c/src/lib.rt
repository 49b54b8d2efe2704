// The library that tests and benches link beside the public one: crate testing's functions under their names. `tools/test-library` writes it.
// Each export calls the function of its name and promises what that does.
// A slice is a pointer and a length.
#![tactic(auto)]

ghost use Rattle.std.specs.Prelude.{◌≡◌, [], ℕ, ◌/◌, ltb, length};
ghost use Rattle.definitions.specs.Lists.{choose};
ghost use Rattle.definitions.specs.Monomial.{Vector};
ghost use Rattle.definitions.specs.Layout.{rows};
ghost use Rattle.definitions.specs.Places.{row_length};
ghost use Rattle.lift_call.specs.Codes.{coded_way};
ghost use Rattle.testing.specs.Frames.{told as told_of_frame, called as called_frame};
ghost use Rattle.testing.specs.Leaves.{descents, products, found, lower, sorted};
ghost use Rattle.testing.specs.Reader.{called as called_reader};
ghost use Rattle.testing.specs.Soundness.{number_of};
ghost use Rattle.testing.specs.Lifts.{bounds_by, told as told_of_level, called as called_level, Counted};

use testing::{frames, leaves, reading, soundness, within_limits};

#[unsafe(no_mangle)]
pub extern "C" fn frames_form(
    d: &mut [u16],
    limit: usize,
    c: &mut [u16],
    heads: &[u16],
    r: usize,
    code: u16,
    count: &mut usize,
) -> u16
    ensures { told_of_frame result count.new d.new ≡ called_frame d.old limit c.old heads.now r code }
{
    frames::frames_form(d, limit, c, heads, r, code, count)
}

#[unsafe(no_mangle)]
pub extern "C" fn leaves_descents(s: &[u16], n: usize, code: u16) -> usize
    ensures { result ≡ descents code s.now n }
{
    leaves::leaves_descents(s, n, code)
}

#[unsafe(no_mangle)]
pub extern "C" fn leaves_products(d: &mut [u16], s: &[u16], n: usize)
    ensures { d.new ≡ products s.now d.old n }
{
    leaves::leaves_products(d, s, n);
}

#[unsafe(no_mangle)]
pub extern "C" fn leaves_found(d: &[u16], r: usize, s: &[u16], n: usize) -> usize
    ensures { result ≡ found d.now r s.now n }
{
    leaves::leaves_found(d, r, s, n)
}

#[unsafe(no_mangle)]
pub extern "C" fn leaves_lower(state: &[u16], k: usize, s: &[u16], n: usize) -> usize
    ensures { result ≡ lower state.now k s.now n }
{
    leaves::leaves_lower(state, k, s, n)
}

#[unsafe(no_mangle)]
pub extern "C" fn leaves_sort(d: &mut [u16], s: &[u16], n: usize, state: &[u16], k: usize) -> usize
    ensures { rows d.new 0 result ≡ choose (ltb (length d.old / row_length) n) []
        (sorted state.now k s.now n) }
{
    leaves::leaves_sort(d, s, n, state, k)
}

#[unsafe(no_mangle)]
pub extern "C" fn reader_read(file: &[u8], state: &mut [u16], place: &mut usize) -> u16
    ensures { (result, place.new, state.new) ≡ called_reader file.now state.old }
{
    reading::reader_read(file, state, place)
}

#[unsafe(no_mangle)]
pub extern "C" fn soundness_number(state: &[u16]) -> u16
    ensures { result ≡ number_of state.now }
{
    soundness::soundness_number(state)
}

#[unsafe(no_mangle)]
pub extern "C" fn lifts_level(
    out: &mut [u16],
    work: &mut [u16],
    cache: &mut [u16],
    state: &[u16],
    level: usize,
    way: u16,
    pick: u16,
    working: usize,
    vector: usize,
    tree: usize,
    room: usize,
    count: &mut usize,
    used: &mut usize,
) -> u16
    ensures { ((n : ℕ) × (v : Vector) × (told_of_level result count.new out.new v
        ≡ called_level (bounds_by working vector tree room) state.now work.old out.old cache.old level
        (coded_way way pick) n)) × Counted result count.new used.new out.new }
{
    within_limits::lifts_level(
        out, work, cache, state, level, way, pick, working, vector, tree, room, count, used,
    )
}
