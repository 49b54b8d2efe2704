// Bytes and numbers in a lent buffer.
// Knows: crate definitions' Sheet, for a number's digits.
// Each function answers where its bytes end.
ghost use Rattle.std.specs.Prelude.{◌≡◌, [], ◌∷◌, ◌+◌, ◌≤◌, ◌<◌, length, replicate};
ghost use Rattle.definitions.specs.Sheet.{decimal};
ghost use Rattle.pages.specs.bytes.Printing.{Printed};

pub fn byte(out: &mut [u8], at: usize, x: u8) -> usize
    requires { at < length out.old }
    ensures { Printed out.old out.new at result (x ∷ []) }
{
    out[at] = x;
    at + 1
}

fn digit(x: usize) -> u8
    requires { x < 10 }
    ensures { result ≡ 48 + x }
{
    b'0' + x as u8
}

// A number in base ten, without leading zeros.
pub fn number(out: &mut [u8], at: usize, v: usize) -> usize
    requires { at + length (decimal v) ≤ length out.old }
    ensures { Printed out.old out.new at result (decimal v) }
{
    if v < 10 {
        return byte(out, at, digit(v));
    }
    let i = number(out, at, v / 10);
    byte(out, i, digit(v % 10))
}

// How many digits a number has.
pub fn width(v: usize) -> usize
    ensures { result ≡ length (decimal v) }
{
    let mut x = v;
    let mut w = 1;
    // A while: the value falls to a tenth.
    while 10 <= x {
        x /= 10;
        w += 1;
    }
    w
}

pub fn spaces(out: &mut [u8], at: usize, n: usize) -> usize
    requires { at + n ≤ length out.old }
    ensures { Printed out.old out.new at result (replicate n 32) }
{
    let mut a = at;
    for _i in 0..n {
        a = byte(out, a, b' ');
    }
    a
}
