// The call that prints the sheet of a file, for every file.
// Exists for: `sheet`.
// Knows: crate definitions' Sheet; listing::whole prints it.
// What it tests first and leaves at its end is crate lending's.
#![tactic(auto)]

ghost use Rattle.std.specs.Prelude.{◌≡◌, ℕ};
ghost use Rattle.definitions.specs.Limits.{document_01};
ghost use Rattle.definitions.specs.Sheet.{sheet as sheet_definition};
ghost use Rattle.definitions.specs.Places.{sheet_length};
ghost use Rattle.lending.specs.Called.{told, called};

use lending::{Answer, Page};
use listing::whole;

struct SheetPage;

impl Page for SheetPage {
    ghost page = { sheet_definition document_01 };

    ghost LENGTH = { sheet_length };

    const LENGTH: usize = words::SHEET_LENGTH;

    fn print(file: &[u8], state: &mut [u16], work: &mut [u16], out: &mut [u8]) -> usize {
        whole::print(file, state, work, out)
    }
}

// "The sheet printed": its bytes in front, zeros after them and in the buffers that were lent for the work.
pub fn sheet(file: &[u8], state: &mut [u16], work: &mut [u16], out: &mut [u8]) -> Answer
    ensures { (n : ℕ) × (told result state.new work.new out.new ≡ called sheet_length (sheet_definition document_01) n
        file.now state.old work.old out.old) }
{
    lending::call::<SheetPage>(file, state, work, out)
}
