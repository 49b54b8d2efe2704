// The completed file of a problem file, in front of a buffer.
// Knows: crate definitions' Completing.
// The buffer holds the file so far; what it says is read anew after each addition. A refusal's line is all that is printed; nothing is zeroed.
ghost use Rattle.std.specs.Prelude.{◌≡◌, ◌≤◌, length, take};
ghost use Rattle.std.proofs.Math.Seq.{paste};
ghost use Rattle.definitions.specs.Limits.{document_01};
ghost use Rattle.definitions.specs.Completing.{completing as completing_definition};
ghost use Rattle.definitions.specs.Layout.{rows};
ghost use Rattle.definitions.specs.Places.{most_terms, state_length, value_length, file_length, completed_length};
ghost use Rattle.completions.specs.Resuming.{Passed};
ghost use Rattle.level.specs.by_runs.Stages.{Base};
ghost use Rattle.listing.specs.whole.Listed.{Prints};
ghost use Rattle.completing.specs.whole.Tries.{Read_in, GrownAs, TriedAs};

use crate::adding;
use level::by_runs;
use listing::printing;
use reader::problem;
use runs::frame_terms::Accepted;
use words::refusals::{Refusal, Refused};

// The file is accepted; or it has an element more, so many bytes, and so many frame terms need no division.
#[derive(Clone, Copy)]
pub enum Tried {
    Accepted,
    Grown(usize, usize),
}

// The value where division stopped, m rows, at frame term t: added, or refused in so many bytes.
fn grow(
    out: &mut [u8],
    size: usize,
    state: &[u16],
    work: &[u16],
    m: usize,
    t: usize,
) -> Result<Tried, usize>
    requires { Base state.now 0 × (size ≤ file_length) × (value_length ≤ length work.now) × (m ≤ most_terms)
        × (completed_length ≤ length out.old) }
    ensures { GrownAs result state.now (take size out.old) (rows work.now 0 m) t out.old
        out.new }
{
    match adding::add(out, size, state, work, m) {
        Ok(r) => Ok(Tried::Grown(r, t.saturating_sub(1))),
        Err(refused) => Err(printing::x_line(out, 0, refused)),
    }
}

// A file that was read, of which so many frame terms need no division.
fn accept(
    out: &mut [u8],
    size: usize,
    from: usize,
    state: &[u16],
    work: &mut [u16],
) -> Result<Tried, usize>
    requires { (state_length ≤ length state.now) × Read_in (take size out.old) state.now × (size ≤ file_length)
        × (value_length ≤ length work.old) × (completed_length ≤ length out.old) × Passed document_01 (take size out.old) from }
    ensures { TriedAs result (take size out.old) out.old out.new }
{
    match by_runs::accept_behind(work, state, from) {
        Ok(Accepted::Yes) => Ok(Tried::Accepted),
        Ok(Accepted::Stopped(t, m)) => grow(out, size, state, work, m, t),
        Err(refused) => Err(printing::x_line(out, 0, refused)),
    }
}

// One try of the file in front of the buffer.
fn attempt(
    out: &mut [u8],
    size: usize,
    from: usize,
    state: &mut [u16],
    work: &mut [u16],
) -> Result<Tried, usize>
    requires { (state_length ≤ length state.old) × (size ≤ file_length) × (value_length ≤ length work.old)
        × (completed_length ≤ length out.old) × Passed document_01 (take size out.old) from }
    ensures { TriedAs result (take size out.old) out.old out.new }
{
    match problem::read(&out[..size], state) {
        Ok(()) => accept(out, size, from, state, work),
        Err(refused) => Err(printing::x_line(out, 0, refused)),
    }
}

// "and tries again until the file is accepted"
fn complete(out: &mut [u8], given: usize, state: &mut [u16], work: &mut [u16]) -> usize
    requires { (state_length ≤ length state.old) × (given ≤ file_length) × (value_length ≤ length work.old)
        × (completed_length ≤ length out.old) }
    ensures { Prints (λ n. completing_definition document_01 n (take given out.old)) out.old out.new 0 result
        × (result ≤ file_length) }
{
    let mut size = given;
    let mut from: usize = 0;
    for _ in 0..words::place(words::MOST_ELEMENTS) + 1 {
        match attempt(out, size, from, state, work) {
            Ok(Tried::Accepted) => return size,
            Ok(Tried::Grown(r, f)) => {
                size = r;
                from = f;
            }
            Err(length) => return length,
        }
    }
    // not reached: the file would have too many elements
    0
}

// A loop, since std's copy_from_slice would make the library ask for `memmove`, which it does not take (docs/LICENSING.md).
fn copy(out: &mut [u8], file: &[u8])
    requires { length file.now ≤ length out.old }
    ensures { out.new ≡ paste out.old 0 file.now (length file.now) }
{
    for i in 0..file.len() {
        out[i] = file[i];
    }
}

// A6: "It prints the file so obtained, in the problem format"
pub fn print(file: &[u8], state: &mut [u16], work: &mut [u16], out: &mut [u8]) -> usize
    requires { (state_length ≤ length state.old) × (value_length ≤ length work.old) × (completed_length ≤ length out.old) }
    ensures { Prints (λ n. completing_definition document_01 n file.now) out.old out.new 0 result
        × (result ≤ file_length) }
{
    let size = file.len();
    if words::FILE_LENGTH < size {
        let refused = Refused {
            refusal: Refusal::Shape,
            place: 0,
        };
        return printing::x_line(out, 0, refused);
    }
    copy(out, file);
    complete(out, size, state, work)
}
