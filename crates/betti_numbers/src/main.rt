// The program that people run: the Betti page of the problem file on standard input, written to standard output.
// Exists for: `answer`.
// Knows: crate page_calls.
// It reads, makes one call and writes; all buffers are its own.
#![tactic(auto)]

ghost use Rattle.std.specs.Prelude.{◌≡◌, ℕ, ◌≤◌, length, take};
ghost use Rattle.std.proofs.Math.Option.{some};
ghost use Rattle.definitions.specs.Limits.{document_01};
ghost use Rattle.definitions.specs.Betti.{betti as betti_definition};
ghost use Rattle.definitions.specs.Places.{state_length, value_length, page_length};
ghost use Rattle.programs.specs.Streams.{IsPrefixLen};

// The Betti page of the bytes that were read stands in front of out: how many bytes it has.
fn answer(file: &[u8], state: &mut [u16], work: &mut [u16], out: &mut [u8]) -> usize
    requires { (state_length ≤ length state.old) × (value_length ≤ length work.old) × (page_length ≤ length out.old) }
    ensures prefix_len { IsPrefixLen result out.new }
    ensures printed { (n : ℕ) × (some (take result out.new) ≡ betti_definition document_01 n file.now) }
{
    let r = page_calls::betti(file, state, work, out);
    r.length
}

fn main(rt: HostRuntime) {
    programs::run(
        rt,
        &mut programs::file_bytes(),
        &mut programs::page_bytes(),
        answer,
    );
}
