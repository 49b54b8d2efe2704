// The program that people run: the completed file of the problem file on standard input, written to standard output.
// Exists for: `answer`.
// Knows: crate page_calls.
// It reads, makes one call and writes; all buffers are its own.
#![tactic(auto)]

ghost use Rattle.std.specs.Prelude.{◌≡◌, ℕ, ◌≤◌, length, take};
ghost use Rattle.std.proofs.Math.Option.{some};
ghost use Rattle.definitions.specs.Limits.{document_01};
ghost use Rattle.definitions.specs.Completing.{completing as completing_definition};
ghost use Rattle.definitions.specs.Places.{state_length, value_length, completed_length};
ghost use Rattle.programs.specs.Streams.{IsPrefixLen};

// The completed file of the bytes that were read stands in front of out: how many bytes they are.
fn answer(file: &[u8], state: &mut [u16], work: &mut [u16], out: &mut [u8]) -> usize
    requires { (state_length ≤ length state.old) × (value_length ≤ length work.old) × (completed_length ≤ length out.old) }
    ensures prefix_len { IsPrefixLen result out.new }
    ensures printed { (n : ℕ) × (some (take result out.new) ≡ completing_definition document_01 n file.now) }
{
    let r = page_calls::complete(file, state, work, out);
    r.length
}

fn out_bytes() -> [u8; words::COMPLETED_LENGTH]
    ensures { completed_length ≡ length result }
{
    [0; words::COMPLETED_LENGTH]
}

fn main(rt: HostRuntime) {
    programs::run(rt, &mut programs::file_bytes(), &mut out_bytes(), answer);
}
