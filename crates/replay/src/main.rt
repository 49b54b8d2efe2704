// The program that people run: the vector of a frame term by the picks behind the problem file on standard input, written to standard output.
// Exists for: `answer`.
// Knows: crate page_calls.
// It reads, makes one call and writes; all buffers are its own. No byte behind those that it reads changes what it writes.
#![tactic(auto)]

ghost use Rattle.std.specs.Prelude.{◌≡◌, ℕ, ◌≤◌, length, take};
ghost use Rattle.std.proofs.Math.Option.{some};
ghost use Rattle.definitions.specs.Limits.{document_01};
ghost use Rattle.definitions.specs.Replay.{replay};
ghost use Rattle.definitions.specs.Places.{state_length, value_length, log_length, replay_length};
ghost use Rattle.programs.specs.Streams.{IsPrefixLen};

// The lines of the bytes that were read stand in front of out: how many bytes they are.
fn answer(input: &[u8], state: &mut [u16], work: &mut [u16], out: &mut [u8]) -> usize
    requires { (state_length ≤ length state.old) × (value_length ≤ length work.old) × (replay_length ≤ length out.old) }
    ensures prefix_len { IsPrefixLen result out.new }
    ensures printed { (n : ℕ) × (some (take result out.new) ≡ replay document_01 n input.now) }
{
    let r = page_calls::replay(input, state, work, out);
    r.length
}

// A file, an L line, as many P lines as may be, and a byte more.
fn input_bytes() -> [u8; words::LOG_LENGTH]
    ensures { log_length ≡ length result }
{
    [0; words::LOG_LENGTH]
}

fn out_bytes() -> [u8; words::REPLAY_LENGTH]
    ensures { replay_length ≡ length result }
{
    [0; words::REPLAY_LENGTH]
}

fn main(rt: HostRuntime) {
    programs::run(rt, &mut input_bytes(), &mut out_bytes(), answer);
}
