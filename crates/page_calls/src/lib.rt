// The calls that print the requests' pages of a file, for every file.
// Exists for: `betti`, `minimal`, `bidegrees`, `hilbert`, `member`, `complete`, `replay`.
// Knows: crate definitions' Betti, Minimal, Bidegrees, Hilbert, Membership, Completing and Replay; module whole of betti_page, minimal_page, bidegree_page,
// hilbert_page, member_page, completing and replay_page prints them.
// What they test first and leave at their end is crate lending's.
#![tactic(auto)]

ghost use Rattle.std.specs.Prelude.{◌≡◌, ℕ};
ghost use Rattle.definitions.specs.Limits.{document_01};
ghost use Rattle.definitions.specs.Betti.{betti as betti_definition};
ghost use Rattle.definitions.specs.Minimal.{minimal as minimal_definition};
ghost use Rattle.definitions.specs.Bidegrees.{bidegrees as bidegrees_definition};
ghost use Rattle.definitions.specs.Hilbert.{hilbert as hilbert_definition};
ghost use Rattle.definitions.specs.Membership.{membership};
ghost use Rattle.definitions.specs.Completing.{completing as completing_definition};
ghost use Rattle.definitions.specs.Replay.{replay as replay_definition};
ghost use Rattle.definitions.specs.Places.{page_length, bidegrees_length, hilbert_length, member_length, completed_length, replay_length};
ghost use Rattle.lending.specs.Called.{told, called};

use lending::{Answer, Page};

struct BettiPage;

impl Page for BettiPage {
    ghost page = { betti_definition document_01 };

    ghost LENGTH = { page_length };

    const LENGTH: usize = words::PAGE_LENGTH;

    fn print(file: &[u8], state: &mut [u16], work: &mut [u16], out: &mut [u8]) -> usize {
        betti_page::whole::print(file, state, work, out)
    }
}

// A1: "A program prints it": its bytes in front, zeros after them and in the buffers that were lent for the work.
pub fn betti(file: &[u8], state: &mut [u16], work: &mut [u16], out: &mut [u8]) -> Answer
    ensures { (n : ℕ) × (told result state.new work.new out.new ≡ called page_length (betti_definition document_01) n
        file.now state.old work.old out.old) }
{
    lending::call::<BettiPage>(file, state, work, out)
}

struct MinimalPage;

impl Page for MinimalPage {
    ghost page = { minimal_definition document_01 };

    ghost LENGTH = { page_length };

    const LENGTH: usize = BettiPage::LENGTH;

    fn print(file: &[u8], state: &mut [u16], work: &mut [u16], out: &mut [u8]) -> usize {
        minimal_page::whole::print(file, state, work, out)
    }
}

// A7: "A program .. prints the numbers as a page in the same layout and rows": likewise.
pub fn minimal(file: &[u8], state: &mut [u16], work: &mut [u16], out: &mut [u8]) -> Answer
    ensures { (n : ℕ) × (told result state.new work.new out.new ≡ called page_length (minimal_definition document_01) n
        file.now state.old work.old out.old) }
{
    lending::call::<MinimalPage>(file, state, work, out)
}

struct BidegreesPage;

impl Page for BidegreesPage {
    ghost page = { bidegrees_definition document_01 };

    ghost LENGTH = { bidegrees_length };

    const LENGTH: usize = words::BIDEGREES_LENGTH;

    fn print(file: &[u8], state: &mut [u16], work: &mut [u16], out: &mut [u8]) -> usize {
        bidegree_page::whole::print(file, state, work, out)
    }
}

// A14: "A program prints `B,column,a,b,count`": likewise.
pub fn bidegrees(file: &[u8], state: &mut [u16], work: &mut [u16], out: &mut [u8]) -> Answer
    ensures { (n : ℕ) × (told result state.new work.new out.new ≡ called bidegrees_length (bidegrees_definition document_01) n
        file.now state.old work.old out.old) }
{
    lending::call::<BidegreesPage>(file, state, work, out)
}

struct HilbertPage;

impl Page for HilbertPage {
    ghost page = { hilbert_definition document_01 };

    ghost LENGTH = { hilbert_length };

    const LENGTH: usize = words::HILBERT_LENGTH;

    fn print(file: &[u8], state: &mut [u16], work: &mut [u16], out: &mut [u8]) -> usize {
        hilbert_page::whole::print(file, state, work, out)
    }
}

// A13: "a program prints `H,degree,value`": likewise.
pub fn hilbert(file: &[u8], state: &mut [u16], work: &mut [u16], out: &mut [u8]) -> Answer
    ensures { (n : ℕ) × (told result state.new work.new out.new ≡ called hilbert_length (hilbert_definition document_01) n
        file.now state.old work.old out.old) }
{
    lending::call::<HilbertPage>(file, state, work, out)
}

struct MemberPage;

impl Page for MemberPage {
    ghost page = { membership document_01 };

    ghost LENGTH = { member_length };

    const LENGTH: usize = words::MEMBER_LENGTH;

    fn print(input: &[u8], state: &mut [u16], work: &mut [u16], out: &mut [u8]) -> usize {
        member_page::whole::print(input, state, work, out)
    }
}

// A12: "It prints `C,coefficient,element,e1,..,en` for each quotient term .. then the remainder as W lines, then `M,1` or `M,0`.": likewise, of a file and the
// V lines after it.
pub fn member(input: &[u8], state: &mut [u16], work: &mut [u16], out: &mut [u8]) -> Answer
    ensures { (n : ℕ) × (told result state.new work.new out.new ≡ called member_length (membership document_01) n
        input.now state.old work.old out.old) }
{
    lending::call::<MemberPage>(input, state, work, out)
}

struct CompletePage;

impl Page for CompletePage {
    ghost page = { completing_definition document_01 };

    ghost LENGTH = { completed_length };

    const LENGTH: usize = words::COMPLETED_LENGTH;

    fn print(file: &[u8], state: &mut [u16], work: &mut [u16], out: &mut [u8]) -> usize {
        completing::whole::print(file, state, work, out)
    }
}

// A6: "It prints the file so obtained, in the problem format": likewise.
pub fn complete(file: &[u8], state: &mut [u16], work: &mut [u16], out: &mut [u8]) -> Answer
    ensures { (n : ℕ) × (told result state.new work.new out.new ≡ called completed_length (completing_definition document_01) n
        file.now state.old work.old out.old) }
{
    lending::call::<CompletePage>(file, state, work, out)
}

struct ReplayPage;

impl Page for ReplayPage {
    ghost page = { replay_definition document_01 };

    ghost LENGTH = { replay_length };

    const LENGTH: usize = words::REPLAY_LENGTH;

    fn print(input: &[u8], state: &mut [u16], work: &mut [u16], out: &mut [u8]) -> usize {
        replay_page::whole::print(input, state, work, out)
    }
}

// A9: "The vector it prints in S lines": likewise, of a file and the L line and P lines after it.
pub fn replay(input: &[u8], state: &mut [u16], work: &mut [u16], out: &mut [u8]) -> Answer
    ensures { (n : ℕ) × (told result state.new work.new out.new ≡ called replay_length (replay_definition document_01) n
        input.now state.old work.old out.old) }
{
    lending::call::<ReplayPage>(input, state, work, out)
}
