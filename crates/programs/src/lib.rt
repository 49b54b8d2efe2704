// What every program does: standard input to its end, buffers of its own, standard output.
// Exists for: `run`, `read`, `write`; `file_bytes`, `state_words`, `work_words`, `page_bytes`.
// Knows: std's streams.
// A call that a signal interrupts before it moves a byte counts as one that failed.
// What a program answers is its own.
#![tactic(auto)]

ghost use Rattle.std.specs.Prelude.{◌≡◌, ◌≤◌, length, take};
ghost use Rattle.definitions.specs.Places.{state_length, value_length, read_length, page_length};
ghost use Rattle.programs.specs.Streams.{IsPrefixLen, Moved, IfRead};

use std::io::{Read, Write};

// One byte more than the longest file: with it a longer one is told from it.
pub fn file_bytes() -> [u8; words::READ_LENGTH]
    ensures { read_length ≡ length result }
{
    [0; words::READ_LENGTH]
}

// Of the buffers only the lengths matter; as functions they are kept out of the programs' proofs.
pub fn state_words() -> [u16; words::STATE_LENGTH]
    ensures { state_length ≡ length result }
{
    [0; words::STATE_LENGTH]
}

pub fn work_words() -> [u16; words::VALUE_LENGTH]
    ensures { value_length ≡ length result }
{
    [0; words::VALUE_LENGTH]
}

// For a page, which two programs print.
pub fn page_bytes() -> [u8; words::PAGE_LENGTH]
    ensures { page_length ≡ length result }
{
    [0; words::PAGE_LENGTH]
}

// How many bytes stand in front, and what a read behind them answered: 0 at the input's end.
#[derive(Clone, Copy)]
pub struct Input {
    pub length: usize,
    pub more: isize,
}

// Standard input to its end, or until the buffer is full; where a read fails, that is told on standard error.
pub fn read(rt: HostRuntime, file: &mut [u8]) -> Input
    ensures prefix_len { IsPrefixLen result.length file.new }
    ensures moved { Moved 1 result.more }
{
    let mut stdin = rt.stdin();
    let length = read_full(&mut stdin, file);
    if file.len() <= length {
        return Input { length, more: 0 };
    }
    // read_full stops at the input's end and where a read fails: what came before a failure is not the file
    let mut next = [0u8; 1];
    let more = more_of(&mut stdin, &mut next);
    if more != 0 {
        write_all(&mut rt.stderr(), b"not read\n");
    }
    Input { length, more }
}

// A program's whole run: standard input into `input`, what `answer` puts in front of `out` to standard output; nothing where the input could not be read.
// What `read` said is the result: `answer` got just so many bytes of `input` and `out` is what it left, or `out` is as it was where they are no whole input.
pub fn run<F: FnOnce(&[u8], &mut [u16], &mut [u16], &mut [u8]) -> usize>(
    rt: HostRuntime,
    input: &mut [u8],
    out: &mut [u8],
    answer: F,
) -> Input
    requires callable { (i : _) (s : _) (w : _) (o : _) → state_length ≤ length s.now → value_length ≤ length w.now → length o.now ≡ length out.old
        → F.pre answer i s w o }
    requires in_front { (i : _) (s : _) (w : _) (o : _) (r : _) (s' : _) (w' : _) (o' : _) → F.post answer i s w o r s' w' o' → IsPrefixLen r o'.now }
    ensures prefix_len { IsPrefixLen result.length input.new }
    ensures moved { Moved 1 result.more }
    ensures ran { IfRead result.more
        ((i : _) × (s : _) × (w : _) × (o : _) × (r : _) × (s' : _) × (w' : _) × (o' : _) × F.post answer i s w o r s' w' o'
        × (i.now ≡ take result.length input.new) × (o.now ≡ out.old) × (o'.now ≡ out.new))
        (out.new ≡ out.old) }
{
    let mut state = state_words();
    let mut work = work_words();
    let read = read(rt, input);
    if read.more == 0 {
        let length = answer(&input[..read.length], &mut state, &mut work, out);
        write(rt, &out[..length]);
    }
    read
}

// All of this to standard output; where a write fails, that is told on standard error.
pub fn write(rt: HostRuntime, out: &[u8]) {
    if !write_all(&mut rt.stdout(), out) {
        write_all(&mut rt.stderr(), b"cut off\n");
    }
}

// How many bytes stand in front of the buffer once it is full, the input ends or a read fails.
fn read_full<R: Read>(from: &mut R, buffer: &mut [u8]) -> usize
    ensures { IsPrefixLen result buffer.new }
{
    let mut done = 0;
    // A while: a read moves as many bytes as it likes.
    while done < buffer.len() {
        match from.read(&mut buffer[done..]) {
            Ok(0) => return done,
            Ok(n) => done += n,
            Err(_) => return done,
        }
    }
    done
}

// What one read answers: how many bytes it put into the buffer, -1 where it fails.
fn more_of<R: Read>(from: &mut R, buffer: &mut [u8; 1]) -> isize
    ensures { Moved 1 result }
{
    match from.read(buffer) {
        Ok(n) => n as isize,
        Err(_) => -1,
    }
}

// Whether all of it was written; else the first write that takes nothing or fails is the last.
fn write_all<W: Write>(to: &mut W, bytes: &[u8]) -> bool {
    let mut done = 0;
    // A while: a write takes as many bytes as it likes.
    while done < bytes.len() {
        match to.write(&bytes[done..]) {
            Ok(0) => return false,
            Ok(n) => done += n,
            Err(_) => return false,
        }
    }
    true
}
