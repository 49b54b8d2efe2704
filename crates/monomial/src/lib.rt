// Monomials: eight exponents in one number, x1's in its top byte, and a component; product with 13's test, quotient, lcm, division, degree.
// Exists for: `Monomial` with `UNIT`, `product`, `quotient`, `lcm`.
// Knows: crate definitions' Monomial and Packed.
// Sums and differences are formed in lanes of sixteen bits: the bytes of x2, x4, x6, x8, and, shifted down, those of x1, x3, x5, x7.
#![tactic(auto)]

ghost use Rattle.std.specs.Prelude.{◌≡◌, ◌+◌, ◌%◌, ◌<◌, ◌≤◌, true};
ghost use Rattle.definitions.specs.Monomial.{
  divides?,
  divides_monomial?,
  same_exponents?,
  same_monomial?,
  quotient as quotient_definition,
  lcm as lcm_definition,
  degree as degree_definition,
  product as product_definition,
  fits?,
};
ghost use Rattle.definitions.specs.Packed.{unpack, long_bound};
ghost use Rattle.definitions.specs.Places.{most_exponent};
ghost use Rattle.monomial.specs.Values.{monomial_of, unit, product_of, formed, even_lanes, pair_lanes, lane_sum, lane_bytes};

#[derive(Clone, Copy)]
pub struct Monomial {
    pub exponents: u64,
    pub component: u16,
}

// The lower byte of each lane, and the bit above it.
const LOW: u64 = 0x00ff_00ff_00ff_00ff;

const MARK: u64 = 0x0100_0100_0100_0100;

// The lowest bit of each byte but the lowest.
const CARRIES: u64 = 0x0101_0101_0101_0100;

// ## Exponents alone

// A mark is put above each exponent of y; taking x's off leaves it where it can.
pub fn divides_exponents(x: u64, y: u64) -> bool
    ensures { result ≡ divides? (unpack x) (unpack y) }
{
    let o = ((y >> 8) & LOW) + MARK - ((x >> 8) & LOW);
    let e = (y & LOW) + MARK - (x & LOW);
    ((o & MARK) & (e & MARK)) == MARK
}

pub fn same_exponents(x: u64, y: u64) -> bool
    ensures { result ≡ same_exponents? (unpack x) (unpack y) }
{
    x == y
}

// y / x, where x divides y: then no exponent borrows from the next.
fn quotient_exponents(y: u64, x: u64) -> u64
    requires { divides? (unpack x) (unpack y) ≡ true }
    ensures { unpack result ≡ quotient_definition (unpack y) (unpack x) }
{
    y - x
}

// The larger of each two exponents of x2, x4, x6, x8, in lanes.
fn larger(x: u64, y: u64) -> u64
    ensures { (result ≡ even_lanes (lcm_definition (unpack x) (unpack y))) × (result ≤ lane_bytes) }
{
    let a = x & LOW;
    let m = (y & LOW) + MARK - a;
    let t = m & MARK;
    a + (m & (t - (t >> 8)))
}

fn lcm_exponents(x: u64, y: u64) -> u64
    ensures { unpack result ≡ lcm_definition (unpack x) (unpack y) }
{
    larger(x >> 8, y >> 8) * 256 + larger(x, y)
}

// Four lanes added up in the top one, where their sum has room: two by two, then all.
pub fn added_lanes(s: u64) -> u64
    requires { lane_sum s < 65536 }
    ensures { result ≡ lane_sum s }
{
    let t = s + s % 0x0001_0000_0000_0000 * 65536;
    (t + t % 0x0001_0000_0000 * 0x0001_0000_0000) / 0x0001_0000_0000_0000
}

// The exponents two by two in four lanes.
pub fn paired(x: u64) -> u64
    ensures { result ≡ pair_lanes (unpack x) }
{
    ((x >> 8) & LOW) + (x & LOW)
}

pub fn degree_exponents(x: u64) -> u64
    ensures { result ≡ degree_definition (unpack x) }
{
    added_lanes(paired(x))
}

// Whether nothing was carried from one exponent into the next, nor out of the first: s is the sum of q and e, and where something is carried into a byte
// its lowest bit shows it.
fn uncarried(q: u64, e: u64, s: u64) -> bool
    requires { s ≡ (q + e) % long_bound }
    ensures { result ≡ fits? most_exponent (product_definition (unpack q) (unpack e)) }
{
    q <= s && (q ^ e ^ s) & CARRIES == 0
}

// ## Made and taken apart

// Eight exponents as they are read, x1's first.
pub fn packed(e: [u8; words::EXPONENTS_LENGTH]) -> u64
    ensures { unpack result ≡ e }
{
    let [x1, x2, x3, x4, x5, x6, x7, x8] = e;
    let h = (u64::from(x1) * 256 + u64::from(x2)) * 65536 + (u64::from(x3) * 256 + u64::from(x4));
    let l = (u64::from(x5) * 256 + u64::from(x6)) * 65536 + (u64::from(x7) * 256 + u64::from(x8));
    h * 0x0001_0000_0000 + l
}

// The exponents as they are printed, and as images are formed of them.
pub fn widened(x: u64) -> [u16; words::EXPONENTS_LENGTH]
    ensures { result ≡ unpack x }
{
    [
        (x / 0x0100_0000_0000_0000) as u16,
        (x / 0x0001_0000_0000_0000 % 256) as u16,
        (x / 0x0100_0000_0000 % 256) as u16,
        (x / 0x0001_0000_0000 % 256) as u16,
        (x / 0x0100_0000 % 256) as u16,
        (x / 0x0001_0000 % 256) as u16,
        (x / 0x0100 % 256) as u16,
        (x % 256) as u16,
    ]
}

impl Monomial {
    pub const UNIT: Monomial = Monomial {
        exponents: 0,
        component: 0,
    };

    pub fn unit() -> Monomial
        ensures { monomial_of result ≡ unit }
    {
        Monomial::UNIT
    }

    pub fn divides(self, other: Monomial) -> bool
        ensures { result ≡ divides_monomial? (monomial_of self) (monomial_of other) }
    {
        self.component == other.component && divides_exponents(self.exponents, other.exponents)
    }

    pub fn same(self, other: Monomial) -> bool
        ensures { result ≡ same_monomial? (monomial_of self) (monomial_of other) }
    {
        self.component == other.component && same_exponents(self.exponents, other.exponents)
    }

    // self / other; where an exponent of other is larger, 0 is left. By the lcm, which other divides.
    pub fn quotient(self, other: Monomial) -> u64
        ensures { unpack result ≡ quotient_definition (monomial_of self).0 (monomial_of other).0 }
    {
        let e = lcm_exponents(self.exponents, other.exponents);
        quotient_exponents(e, other.exponents)
    }

    pub fn lcm(self, other: Monomial) -> Monomial
        ensures { monomial_of result ≡ (lcm_definition (monomial_of self).0 (monomial_of other).0, self.component) }
    {
        Monomial {
            exponents: lcm_exponents(self.exponents, other.exponents),
            component: self.component,
        }
    }

    pub fn degree(self) -> u64
        ensures { result ≡ degree_definition (monomial_of self).0 }
    {
        degree_exponents(self.exponents)
    }

    // None where an exponent would be above 255.
    pub fn product(self, q: u64) -> Option<Monomial>
        ensures { product_of result ≡ formed (unpack q) (monomial_of self) }
    {
        let e = self.exponents;
        let s = q.wrapping_add(e);
        if !uncarried(q, e, s) {
            return None;
        }
        Some(Monomial {
            exponents: s,
            component: self.component,
        })
    }
}
