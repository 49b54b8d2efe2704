// The input of a program that takes lines after E: where the problem file in front of it ends, how many lines the file has.
// Exists for: `file_end`, `lines_in`.
// Knows: crate definitions' After.
// The bytes are looked at one by one; what the lines say is crate reader's.
#![tactic(auto)]

ghost use Rattle.std.specs.Prelude.{◌≡◌, true, ◌+◌, ◌≤◌, length, drop};
ghost use Rattle.definitions.specs.Problem.{lines};
ghost use Rattle.definitions.specs.After.{before_e as before_e_definition, line_length, file_end as file_end_definition};

// How many bytes stand before the first line beginning with E, all of them where there is none.
pub fn before_e(input: &[u8]) -> usize
    ensures { (result ≡ before_e_definition true input.now) × (result ≤ length input.now) }
{
    let mut begins = true;
    for i in 0..input.len() {
        if begins && input[i] == b'E' {
            return i;
        }
        begins = input[i] == b'\n';
    }
    input.len()
}

// Behind the line that stands at a position.
pub fn behind_line(input: &[u8], at: usize) -> usize
    requires { at ≤ length input.now }
    ensures { (result ≡ at + line_length (drop at input.now)) × (result ≤ length input.now) }
{
    for i in at..input.len() {
        if input[i] == b'\n' {
            return i + 1;
        }
    }
    input.len()
}

// Where the problem file ends: behind the first line beginning with E.
pub fn file_end(input: &[u8]) -> usize
    ensures { (result ≡ file_end_definition input.now) × (result ≤ length input.now) }
{
    let at = before_e(input);
    behind_line(input, at)
}

// How many lines there are.
pub fn lines_in(file: &[u8]) -> usize
    ensures { (result ≡ length (lines file.now)) × (result ≤ length file.now) }
{
    let mut at = 0;
    let mut count = 0;
    // A while: the position jumps by a line.
    while at < file.len() {
        at = behind_line(file, at);
        count += 1;
    }
    count
}
