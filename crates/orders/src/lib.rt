// Comparing: the three orders, images on level 0, and through them the order of every level.
// Exists for: `compare`, `compare_images`, `against_row`.
// Knows: crate definitions' Order and Packed.
// An image is a monomial of level 0 whose exponents may pass 255: level k's are at most 255 · (k + 1), so 16 bits hold them.
#![tactic(auto)]

ghost use Rattle.std.specs.Prelude.{◌≡◌, [], reverse, ◌+◌, ◌*◌, ◌≤◌, ◌<◌, length, get_or};
ghost use Rattle.definitions.specs.Monomial.{degree, product};
ghost use Rattle.definitions.specs.Order.{
  lexicographic as lexicographic_definition,
  last_differing as last_differing_definition,
  exponents_by,
  compare_over,
};
ghost use Rattle.definitions.specs.Packed.{unpack};
ghost use Rattle.definitions.specs.Layout.{row_at};
ghost use Rattle.definitions.specs.Places.{most_image, row_length, image_length, rank_offset, exponents_offset};
ghost use Rattle.monomial.specs.Values.{monomial_of};
ghost use Rattle.orders.specs.Images.{
  comparison_of,
  exponents_raw,
  table_of,
  Bounded,
  Tabled,
  key,
  key_of,
  compare_keys,
  degrees_by,
  places_by,
  row_image,
};

use monomial::Monomial;
use std::cmp::Ordering;

// The image of a module monomial on level 0; the rank of its component's image decides ties, then its own component.
#[derive(Clone, Copy)]
pub struct Image {
    pub exponents: [u16; words::EXPONENTS_LENGTH],
    pub rank: u16,
    pub component: u16,
}

fn lexicographic(x: [u16; words::EXPONENTS_LENGTH], y: [u16; words::EXPONENTS_LENGTH]) -> Ordering
    ensures { comparison_of result ≡ lexicographic_definition x y }
{
    for j in 0..words::EXPONENTS_LENGTH {
        let d = x[j].cmp(&y[j]);
        if d.is_ne() {
            return d;
        }
    }
    Ordering::Equal
}

// From the last exponent down; the smaller one is greater.
fn last_differing(x: [u16; words::EXPONENTS_LENGTH], y: [u16; words::EXPONENTS_LENGTH]) -> Ordering
    ensures { comparison_of result ≡ last_differing_definition x y }
{
    for j in (0..words::EXPONENTS_LENGTH).rev() {
        let d = y[j].cmp(&x[j]);
        if d.is_ne() {
            return d;
        }
    }
    Ordering::Equal
}

pub fn total(x: [u16; words::EXPONENTS_LENGTH]) -> u32
    ensures { result ≡ degree x }
{
    let mut d: u32 = 0;
    for j in 0..words::EXPONENTS_LENGTH {
        d += u32::from(x[j]);
    }
    d
}

// The order code decides.
pub fn by_code(
    code: u16,
    x: [u16; words::EXPONENTS_LENGTH],
    y: [u16; words::EXPONENTS_LENGTH],
) -> Ordering
    ensures { comparison_of result ≡ exponents_by code x y }
{
    match code {
        1 => lexicographic(x, y),
        2 => {
            let d = total(x).cmp(&total(y));
            if d.is_ne() {
                return d;
            }
            lexicographic(x, y)
        }
        _ => {
            let d = total(x).cmp(&total(y));
            if d.is_ne() {
                return d;
            }
            last_differing(x, y)
        }
    }
}

// ## Exponents in one number

// The bytes in the other direction: x8 is the top byte then.
fn swapped(x: u64) -> u64
    ensures { unpack result ≡ reverse (unpack x) }
{
    let a = x % 256 * 0x0100_0000_0000_0000 + x / 0x100 % 256 * 0x0001_0000_0000_0000;
    let b = x / 0x1_0000 % 256 * 0x0100_0000_0000 + x / 0x0100_0000 % 256 * 0x0001_0000_0000;
    let c = x / 0x0001_0000_0000 % 256 * 0x0100_0000 + x / 0x0100_0000_0000 % 256 * 0x0001_0000;
    let d = x / 0x0001_0000_0000_0000 % 256 * 0x0100 + x / 0x0100_0000_0000_0000;
    (a + b) + (c + d)
}

// What the degrees decide, where the order code looks at them.
fn packed_degrees(code: u16, x: u64, y: u64) -> Ordering
    ensures { comparison_of result ≡ degrees_by code (degree (unpack x)) (degree (unpack y)) }
{
    match code {
        1 => Ordering::Equal,
        _ => monomial::degree_exponents(x).cmp(&monomial::degree_exponents(y)),
    }
}

// The larger number is the larger one lexicographically: x1 is its top byte.
fn packed_places(code: u16, x: u64, y: u64) -> Ordering
    ensures { comparison_of result ≡ places_by code (unpack x) (unpack y) }
{
    match code {
        1 | 2 => x.cmp(&y),
        _ => swapped(y).cmp(&swapped(x)),
    }
}

// The order code decides. In two parts, each called at one place only, so that they become part of the loop around them.
pub fn compare_exponents(code: u16, x: u64, y: u64) -> Ordering
    ensures { comparison_of result ≡ exponents_by code (unpack x) (unpack y) }
{
    let d = packed_degrees(code, x, y);
    if d.is_ne() {
        return d;
    }
    packed_places(code, x, y)
}

// On level 0: exponents first, then the larger component.
pub fn compare(code: u16, a: Monomial, b: Monomial) -> Ordering
    ensures { comparison_of result ≡ compare_over code [] (monomial_of a) (monomial_of b) }
{
    let d = compare_exponents(code, a.exponents, b.exponents);
    if d.is_ne() {
        return d;
    }
    a.component.cmp(&b.component)
}

// ## Images

// Eight exponents times those from word at on.
fn shifted(e: u64, table: &[u16], at: usize) -> [u16; words::EXPONENTS_LENGTH]
    requires { (at + 8 ≤ length table.now) × Bounded table.now at }
    ensures { result ≡ product (unpack e) (exponents_raw table.now at) }
{
    let x = monomial::widened(e);
    let mut w = [0u16; words::EXPONENTS_LENGTH];
    for j in 0..words::EXPONENTS_LENGTH {
        w[j] = x[j] + table[at + j];
    }
    w
}

// The image where the table lacks the component: the monomial itself.
fn own_image(e: u64, component: u16) -> Image
    ensures { key_of result ≡ (unpack e, (0, component)) }
{
    Image {
        exponents: monomial::widened(e),
        rank: 0,
        component,
    }
}

// The image of a monomial through a table with a row for each component: its image's rank and exponents. Two tests one after the other: joined by `||` they
// make the loops around them slower by half.
pub fn image_of(table: &[u16], r: usize, m: Monomial) -> Image
    requires { (r * image_length ≤ length table.now) × Tabled r table.now }
    ensures { key_of result ≡ key (table_of r table.now) (monomial_of m) }
{
    let component = m.component;
    let i = usize::from(component);
    let e = m.exponents;
    if i == 0 {
        return own_image(e, component);
    }
    if r < i {
        return own_image(e, component);
    }
    let at = i * words::IMAGE_LENGTH - words::IMAGE_LENGTH;
    Image {
        exponents: shifted(e, table, at + words::EXPONENTS_OFFSET),
        rank: table[at + words::RANK_OFFSET],
        component,
    }
}

pub fn compare_images(code: u16, a: Image, b: Image) -> Ordering
    ensures { comparison_of result ≡ compare_keys code (key_of a) (key_of b) }
{
    let d = by_code(code, a.exponents, b.exponents);
    if d.is_ne() {
        return d;
    }
    a.rank.cmp(&b.rank).then(a.component.cmp(&b.component))
}

// ## An image against another, when the first's total degree is known

fn formed_degrees(code: u16, d: u32, y: [u16; words::EXPONENTS_LENGTH]) -> Ordering
    ensures { comparison_of result ≡ degrees_by code d (degree y) }
{
    match code {
        1 => Ordering::Equal,
        _ => d.cmp(&total(y)),
    }
}

fn formed_places(
    code: u16,
    x: [u16; words::EXPONENTS_LENGTH],
    y: [u16; words::EXPONENTS_LENGTH],
) -> Ordering
    ensures { comparison_of result ≡ places_by code x y }
{
    match code {
        1 | 2 => lexicographic(x, y),
        _ => last_differing(x, y),
    }
}

fn formed_by_code(
    code: u16,
    x: [u16; words::EXPONENTS_LENGTH],
    d: u32,
    y: [u16; words::EXPONENTS_LENGTH],
) -> Ordering
    requires { d ≡ degree x }
    ensures { comparison_of result ≡ exponents_by code x y }
{
    let c = formed_degrees(code, d, y);
    if c.is_ne() {
        return c;
    }
    formed_places(code, x, y)
}

// An image with its total degree against another.
pub fn against_image(code: u16, a: Image, d: u32, b: Image) -> Ordering
    requires { d ≡ degree a.exponents }
    ensures { comparison_of result ≡ compare_keys code (key_of a) (key_of b) }
{
    let c = formed_by_code(code, a.exponents, d, b.exponents);
    if c.is_ne() {
        return c;
    }
    a.rank.cmp(&b.rank).then(a.component.cmp(&b.component))
}

// ## The image of a row

// The image of row i.
pub fn image_of_row(s: &[u16], i: usize, table: &[u16], r: usize) -> Image
    requires { (i * row_length + row_length ≤ length s.now) × (r * image_length ≤ length table.now) × Tabled r table.now }
    ensures { key_of result ≡ key (table_of r table.now) (row_at s.now i).1 }
{
    let at = i * words::ROW_LENGTH;
    let m = Monomial {
        exponents: words::long(s, at + words::EXPONENTS_OFFSET),
        component: s[at + words::COMPONENT_OFFSET],
    };
    image_of(table, r, m)
}

// ## An image against that of a row: of the row's only as much is formed as decides

// An exponent of a row and the table's.
fn joined(d: u64, w: u16) -> u16
    requires { (d < 256) × (w ≤ most_image) }
    ensures { result ≡ d + w }
{
    d as u16 + w
}

// The row's exponents move up by a byte at each step.
fn row_lexicographic(
    x: [u16; words::EXPONENTS_LENGTH],
    e: u64,
    table: &[u16],
    to: usize,
) -> Ordering
    requires { (to + 8 ≤ length table.now) × Bounded table.now to }
    ensures { comparison_of result ≡ lexicographic_definition x (row_image e table.now to) }
{
    let mut f = e;
    for j in 0..words::EXPONENTS_LENGTH {
        let y = joined(f / 0x0100_0000_0000_0000, table[to + j]);
        let d = x[j].cmp(&y);
        if d.is_ne() {
            return d;
        }
        f = f % 0x0100_0000_0000_0000 * 256;
    }
    Ordering::Equal
}

// .. and down.
fn row_last_differing(
    x: [u16; words::EXPONENTS_LENGTH],
    e: u64,
    table: &[u16],
    to: usize,
) -> Ordering
    requires { (to + 8 ≤ length table.now) × Bounded table.now to }
    ensures { comparison_of result ≡ last_differing_definition x (row_image e table.now to) }
{
    let mut f = e;
    for j in (0..words::EXPONENTS_LENGTH).rev() {
        let y = joined(f % 256, table[to + j]);
        let d = y.cmp(&x[j]);
        if d.is_ne() {
            return d;
        }
        f = f / 256;
    }
    Ordering::Equal
}

// In lanes of sixteen bits.
fn row_total(e: u64, table: &[u16], to: usize) -> u32
    requires { (to + 8 ≤ length table.now) × Bounded table.now to }
    ensures { result ≡ degree (row_image e table.now to) }
{
    let l = words::long(table, to);
    let h = words::long(table, to + 4);
    monomial::added_lanes(monomial::paired(e) + l + h) as u32
}

fn own_total(e: u64) -> u32
    ensures { result ≡ degree (unpack e) }
{
    monomial::degree_exponents(e) as u32
}

// The total degree of row i's image.
pub fn row_degree(s: &[u16], i: usize, table: &[u16], r: usize) -> u32
    requires { (i * row_length + row_length ≤ length s.now) × (r * image_length ≤ length table.now) × Tabled r table.now }
    ensures { result ≡ degree (key (table_of r table.now) (row_at s.now i).1).0 }
{
    let at = i * words::ROW_LENGTH;
    let c = usize::from(s[at + words::COMPONENT_OFFSET]);
    let e = words::long(s, at + words::EXPONENTS_OFFSET);
    if c == 0 || r < c {
        return own_total(e);
    }
    let to = c * words::IMAGE_LENGTH - words::IMAGE_LENGTH;
    row_total(e, table, to + words::EXPONENTS_OFFSET)
}

fn row_degrees(code: u16, total: u32, e: u64, table: &[u16], to: usize) -> Ordering
    requires { (to + 8 ≤ length table.now) × Bounded table.now to }
    ensures { comparison_of result ≡ degrees_by code total (degree (row_image e table.now to)) }
{
    match code {
        1 => Ordering::Equal,
        _ => total.cmp(&row_total(e, table, to)),
    }
}

// Each of the two walks is called at one place only, so that it becomes part of the loop around it.
fn row_places(
    code: u16,
    x: [u16; words::EXPONENTS_LENGTH],
    e: u64,
    table: &[u16],
    to: usize,
) -> Ordering
    requires { (to + 8 ≤ length table.now) × Bounded table.now to }
    ensures { comparison_of result ≡ places_by code x (row_image e table.now to) }
{
    match code {
        1 | 2 => row_lexicographic(x, e, table, to),
        _ => row_last_differing(x, e, table, to),
    }
}

fn row_by_code(
    code: u16,
    x: [u16; words::EXPONENTS_LENGTH],
    total: u32,
    e: u64,
    table: &[u16],
    to: usize,
) -> Ordering
    requires { (to + 8 ≤ length table.now) × Bounded table.now to × (total ≡ degree x) }
    ensures { comparison_of result ≡ exponents_by code x (row_image e table.now to) }
{
    let d = row_degrees(code, total, e, table, to);
    if d.is_ne() {
        return d;
    }
    row_places(code, x, e, table, to)
}

// A row's exponents and component; the component's row in the table begins at word to.
fn against_tabled(
    code: u16,
    a: Image,
    total: u32,
    e: u64,
    component: u16,
    table: &[u16],
    to: usize,
) -> Ordering
    requires { (to + image_length ≤ length table.now) × Bounded table.now (to + exponents_offset) × (total ≡ degree a.exponents) }
    ensures { comparison_of result ≡ compare_keys code (key_of a) (
      row_image e table.now (to + exponents_offset),
      (get_or table.now (to + rank_offset) 0, component),
    ) }
{
    let d = row_by_code(
        code,
        a.exponents,
        total,
        e,
        table,
        to + words::EXPONENTS_OFFSET,
    );
    if d.is_ne() {
        return d;
    }
    a.rank
        .cmp(&table[to + words::RANK_OFFSET])
        .then(a.component.cmp(&component))
}

// Where the table lacks the component: the row's image is the row itself. By `compare_images`: called here too, `against_image` would no longer become part
// of the loop around it.
fn against_own(code: u16, a: Image, e: u64, component: u16) -> Ordering
    ensures { comparison_of result ≡ compare_keys code (key_of a) (unpack e, (0, component)) }
{
    compare_images(code, a, own_image(e, component))
}

// An image with its total degree against the image of row i.
pub fn against_row(
    code: u16,
    a: Image,
    total: u32,
    s: &[u16],
    i: usize,
    table: &[u16],
    r: usize,
) -> Ordering
    requires { (i * row_length + row_length ≤ length s.now) × (r * image_length ≤ length table.now) × Tabled r table.now
        × (total ≡ degree a.exponents) }
    ensures { comparison_of result ≡ compare_keys code (key_of a) (key (table_of r table.now) (row_at s.now i).1) }
{
    let at = i * words::ROW_LENGTH;
    let component = s[at + words::COMPONENT_OFFSET];
    let c = usize::from(component);
    let e = words::long(s, at + words::EXPONENTS_OFFSET);
    if c == 0 || r < c {
        return against_own(code, a, e, component);
    }
    against_tabled(
        code,
        a,
        total,
        e,
        component,
        table,
        c * words::IMAGE_LENGTH - words::IMAGE_LENGTH,
    )
}
