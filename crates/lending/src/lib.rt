// What a call that prints a page does: it tests the lengths of the lent buffers, prints, and leaves zeros in all that is not the page.
// Exists for: `Page`, `call`, `Answer`.
// Knows: no page; its length and how it is printed are what a type that is a `Page` says.
// The buffers are zeroed once, at the end.
#![tactic(auto)]

ghost use Rattle.std.specs.Prelude.{◌≡◌, ℕ, ◌≤◌, length};
ghost use Rattle.std.proofs.Math.Option.{Option, some};
ghost use Rattle.definitions.specs.Problem.{Bytes};
ghost use Rattle.definitions.specs.Layout.{zeros};
ghost use Rattle.definitions.specs.Places.{state_length, value_length};
ghost use Rattle.pages.specs.bytes.Printing.{Printed};
ghost use Rattle.vectors.specs.terms.Rows.{cleared};
ghost use Rattle.lending.specs.Called.{long_enough?, told, told_of, called};

use vectors::terms;

// 0 and how many bytes, or 16 and 0.
#[derive(Clone, Copy)]
pub struct Answer {
    pub number: u16,
    pub length: usize,
}

// Whether buffers of these lengths do for a page of at most `size` bytes.
pub fn long_enough(state: usize, work: usize, out: usize, size: usize) -> bool
    ensures { result ≡ long_enough? size state work out }
{
    words::STATE_LENGTH <= state && words::VALUE_LENGTH <= work && size <= out
}

pub fn too_short() -> Answer
    ensures { (result.number ≡ 16) × (result.length ≡ 0) }
{
    Answer {
        number: 16,
        length: 0,
    }
}

// Zeros from byte `from` on.
fn clear(out: &mut [u8], from: usize)
    ensures { out.new ≡ cleared out.old from }
{
    for i in from..out.len() {
        out[i] = 0;
    }
}

// Zeros behind the n bytes of the page and in the buffers that were lent for the work.
pub fn finish(state: &mut [u16], work: &mut [u16], out: &mut [u8], n: usize) -> Answer
    ensures { told result state.new work.new out.new
        ≡ told_of 0 n (zeros state.old) (zeros work.old) (cleared out.old n) }
{
    clear(out, n);
    terms::clear(state, 0);
    terms::clear(work, 0);
    Answer {
        number: 0,
        length: n,
    }
}

// A page that a call prints: what it is of a file, how many bytes it has at the most, and how it is printed in front of a buffer.
pub trait Page {
    ghost page: { ℕ → Bytes → Option Bytes };

    ghost LENGTH: { ℕ };

    const LENGTH: usize;

    fn print(file: &[u8], state: &mut [u16], work: &mut [u16], out: &mut [u8]) -> usize
        requires { (state_length ≤ length state.old) × (value_length ≤ length work.old) × (LENGTH ≤ length out.old) }
        ensures { (n : ℕ) × (bytes : Bytes) × (some bytes ≡ page n file.now) × Printed out.old out.new 0 result bytes };
}

// The page's bytes in front, zeros after them and in the buffers that were lent for the work; 16 where a buffer is too short.
pub fn call<P: Page>(file: &[u8], state: &mut [u16], work: &mut [u16], out: &mut [u8]) -> Answer
    ensures { (n : ℕ) × (told result state.new work.new out.new
        ≡ called P.LENGTH P.page n file.now state.old work.old out.old) }
{
    if !long_enough(state.len(), work.len(), out.len(), P::LENGTH) {
        return too_short();
    }
    let length = P::print(file, state, work, out);
    finish(state, work, out, length)
}
