// Arithmetic modulo p, for p up to 65,535.
// Exists for: `sum`, `times`, `inverse`, `is_prime`.
// Knows: crate definitions' Field.
// All products are formed in u32.
#![tactic(auto)]

ghost use Rattle.std.specs.Prelude.{◌≡◌, ◌<◌};
ghost use Rattle.definitions.specs.Limits.{document_01};
ghost use Rattle.definitions.specs.Field.{plus, times as times_definition, minus, inverse as inverse_definition, prime?};
ghost use Rattle.definitions.specs.Problem.{prime_in_range?};

// The sum modulo p.
pub fn sum(a: u16, b: u16, p: u16) -> u16
    requires { 0 < p }
    ensures { result ≡ plus p a b }
{
    ((u32::from(a) + u32::from(b)) % u32::from(p)) as u16
}

// The product modulo p.
pub fn times(a: u16, b: u16, p: u16) -> u16
    requires { 0 < p }
    ensures { result ≡ times_definition p a b }
{
    (u32::from(a) * u32::from(b) % u32::from(p)) as u16
}

// What gives 0 with a.
pub fn negative(a: u16, p: u16) -> u16
    requires { 0 < p }
    ensures { result ≡ minus p a }
{
    (p - a % p) % p
}

// What gives 1 times a, where p is prime and does not divide a: the definition's recursion as a loop.
pub fn inverse(a: u16, p: u16) -> u16
    requires { 1 < p }
    ensures { result ≡ inverse_definition p a }
{
    let mut r: u16 = 1;
    let mut x = a % p;
    // A while: x falls to the rest of a division.
    while 1 < x {
        r = times(r, p - p / x, p);
        x = p % x;
    }
    r
}

// Trial division up to the square root.
pub fn is_prime(p: u16) -> bool
    ensures { result ≡ prime? p }
{
    if p < 2 {
        return false;
    }
    let q = u32::from(p);
    let mut d: u32 = 2;
    // A while: it ends at the square root.
    while d * d <= q {
        if q % d == 0 {
            return false;
        }
        d += 1;
    }
    true
}

// Every word is within the bound, 65,535 (A4).
pub fn prime_in_range(p: u16) -> bool
    ensures { result ≡ prime_in_range? document_01 p }
{
    is_prime(p)
}
