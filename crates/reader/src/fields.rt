// One line of a file at a time, held to a shape: a letter and so many numbers.
// Knows: crate definitions' Problem, up to `shaped`.
// A position counts bytes from the file's start; `drop at file` is what is left of it.
ghost use Rattle.std.specs.Prelude.{◌≡◌, ◌≤◌, ◌<◌, drop};
ghost use Rattle.reader.specs.fields.Scanning.{
  digit_as,
  digit_value,
  number_first,
  number_on,
  number_zero,
  numbers_first,
  shaped_first,
  field_as,
  line_as,
  in_sixteen,
};

// The numbers of a line, zeros behind them, and the position behind it.
#[derive(Clone, Copy)]
pub struct Line {
    pub next: usize,
    pub numbers: [u16; 16],
}

fn digit(b: u8) -> Option<u32>
    ensures { digit_as result ≡ digit_value b }
{
    match b {
        b'0'..=b'9' => Some(u32::from(b - b'0')),
        _ => None,
    }
}

// The digits from a position on, after those so far gave a value, and where they end; one above 65,535 ends it, however many digits follow.
fn number_on(file: &[u8], from: usize, first: u32) -> Option<(u16, usize)>
    requires { first ≤ 65535 }
    ensures { field_as result file.now ≡ number_on 65535 first (drop from file.now) }
{
    let mut value = first;
    for at in from..file.len() {
        let Some(d) = digit(file[at]) else {
            return Some((value as u16, at));
        };
        value = value * 10 + d;
        if 65535 < value {
            return None;
        }
    }
    Some((value as u16, file.len()))
}

// Behind the digit 0 no other may stand.
fn number_zero(file: &[u8], at: usize) -> Option<(u16, usize)>
    ensures { field_as result file.now ≡ number_zero (drop at file.now) }
{
    if at < file.len() && digit(file[at]).is_some() {
        return None;
    }
    Some((0, at))
}

// The number at a position, and the position behind it.
fn number(file: &[u8], at: usize) -> Option<(u16, usize)>
    ensures { field_as result file.now ≡ number_first 65535 (drop at file.now) }
{
    let b = *file.get(at)?;
    let d = digit(b)?;
    if d == 0 {
        return number_zero(file, at + 1);
    }
    number_on(file, at + 1, d)
}

// Behind the letter: so many numbers, a comma before each, then byte 10.
fn numbers(file: &[u8], from: usize, count: usize) -> Option<Line>
    requires { count ≤ 16 }
    ensures { line_as result file.now ≡ in_sixteen (numbers_first 65535 count (drop from file.now)) }
{
    let mut numbers = [0u16; 16];
    let mut at = from;
    for i in 0..count {
        if file.len() <= at || file[at] != b',' {
            return None;
        }
        let (v, next) = number(file, at + 1)?;
        numbers[i] = v;
        at = next;
    }
    if file.len() <= at || file[at] != b'\n' {
        return None;
    }
    Some(Line {
        next: at + 1,
        numbers,
    })
}

// The line at a position, if it begins with this letter and so many numbers follow.
pub fn line_at(file: &[u8], at: usize, letter: u8, count: usize) -> Option<Line>
    requires { (57 < letter) × (count ≤ 16) }
    ensures { line_as result file.now ≡ in_sixteen (shaped_first 65535 letter count (drop at file.now)) }
{
    if file.len() <= at || file[at] != letter {
        return None;
    }
    numbers(file, at + 1, count)
}
