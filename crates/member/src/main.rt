// The program that people run: whether the vector behind the problem file on standard input is in its module, written to standard output.
// Exists for: `answer`.
// Knows: crate page_calls.
// It reads, makes one call and writes; all buffers are its own. No byte behind those that it reads changes what it writes.
#![tactic(auto)]

ghost use Rattle.std.specs.Prelude.{◌≡◌, ℕ, ◌≤◌, length, take};
ghost use Rattle.std.proofs.Math.Option.{some};
ghost use Rattle.definitions.specs.Limits.{document_01};
ghost use Rattle.definitions.specs.Membership.{membership};
ghost use Rattle.definitions.specs.Places.{state_length, value_length, brought_length, member_length};
ghost use Rattle.programs.specs.Streams.{IsPrefixLen};

// The lines of the bytes that were read stand in front of out: how many bytes they are.
fn answer(input: &[u8], state: &mut [u16], work: &mut [u16], out: &mut [u8]) -> usize
    requires { (state_length ≤ length state.old) × (value_length ≤ length work.old) × (member_length ≤ length out.old) }
    ensures prefix_len { IsPrefixLen result out.new }
    ensures printed { (n : ℕ) × (some (take result out.new) ≡ membership document_01 n input.now) }
{
    let r = page_calls::member(input, state, work, out);
    r.length
}

// A file, as many V lines as may be, and a byte more.
fn input_bytes() -> [u8; words::BROUGHT_LENGTH]
    ensures { brought_length ≡ length result }
{
    [0; words::BROUGHT_LENGTH]
}

fn out_bytes() -> [u8; words::MEMBER_LENGTH]
    ensures { member_length ≡ length result }
{
    [0; words::MEMBER_LENGTH]
}

fn main(rt: HostRuntime) {
    programs::run(rt, &mut input_bytes(), &mut out_bytes(), answer);
}
