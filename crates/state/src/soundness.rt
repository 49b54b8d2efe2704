// The state as words: the soundness test behind 11, and the tables of images that it makes as it goes.
// Knows: crate definitions' Layout and State, with document 01's limits (docs/BUFFERS.md).
// It writes nothing of the state; that is state::writing.
ghost use Rattle.std.specs.Prelude.{◌≡◌, ◌+◌, ◌-◌, ◌*◌, ◌≤◌, ◌<◌, length, take};
ghost use Rattle.definitions.specs.Limits.{document_01};
ghost use Rattle.definitions.specs.Lists.{◌and◌};
ghost use Rattle.definitions.specs.Packed.{pack};
ghost use Rattle.definitions.specs.Order.{greater?};
ghost use Rattle.definitions.specs.Layout.{holds_state?};
ghost use Rattle.definitions.specs.Places.{most_vectors, all_levels, row_length, header_length, level_length, state_length, images_length, image_length};
ghost use Rattle.orders.specs.Images.{key_of, compare_keys, table_of, table_order, Tabled};
ghost use Rattle.words.specs.parameters.Values.{parameters_of};
ghost use Rattle.state.specs.soundness.Places.{numbers_at, count_at, count_below, rows_from, ends_from};
ghost use Rattle.state.specs.soundness.Holding.{
  exponent_limits as limits_definition,
  bounds_of,
  row_holds?,
  follows?,
  all_hold?,
  vector_holds?,
  vectors_hold?,
  level_holds?,
  level_test?,
  levels_hold?,
  basis_holds?,
};
ghost use Rattle.state.specs.soundness.Tabled.{Advanced};
ghost use Rattle.reducers.specs.tables.Cuts.{Cut};

use crate::degrees;
use orders::Image;
use reducers::tables;
use vectors::terms;
use words::parameters;
use words::parameters::Parameters;

// What a row's words are held to: the greatest coefficient and component, the greatest of each exponent, packed as a row's are.
#[derive(Clone, Copy)]
pub struct Bounds {
    pub top: u16,
    pub components: u16,
    pub exponents: u64,
}

// ## Parameters

pub fn read_parameters(state: &[u16]) -> Parameters
    requires { header_length ≤ length state.now }
    ensures { parameters_of result ≡ numbers_at state.now }
{
    Parameters {
        p: state[0],
        n: state[1],
        code: state[2],
        s: state[3],
    }
}

// ## Rows

// The greatest values of the exponents: 255 of the first n, 0 past them.
fn exponent_limits(n: u16) -> u64
    ensures { result ≡ pack (limits_definition n) }
{
    match n {
        0 => 0,
        1 => 0xff00_0000_0000_0000,
        2 => 0xffff_0000_0000_0000,
        3 => 0xffff_ff00_0000_0000,
        4 => 0xffff_ffff_0000_0000,
        5 => 0xffff_ffff_ff00_0000,
        6 => 0xffff_ffff_ffff_0000,
        7 => 0xffff_ffff_ffff_ff00,
        _ => 0xffff_ffff_ffff_ffff,
    }
}

pub fn row_bounds(p: u16, n: u16, components: u16) -> Bounds
    ensures { result ≡ bounds_of p n components }
{
    Bounds {
        top: p.saturating_sub(1),
        components,
        exponents: exponent_limits(n),
    }
}

pub fn row_holds(level: &[u16], i: usize, b: Bounds) -> bool
    requires { i * row_length + row_length ≤ length level.now }
    ensures { result ≡ row_holds? b level.now i }
{
    let at = i * words::ROW_LENGTH;
    words::between(1, level[at], b.top)
        && words::between(1, level[at + words::COMPONENT_OFFSET], b.components)
        && monomial::divides_exponents(
            words::long(level, at + words::EXPONENTS_OFFSET),
            b.exponents,
        )
}

// ## Vectors

// Row i is in range and below the row with the image before it.
fn follows(level: &[u16], i: usize, b: Bounds, code: u16, before: Image, image: Image) -> bool
    requires { i * row_length + row_length ≤ length level.now }
    ensures { result ≡ (row_holds? b level.now i and greater? (compare_keys code (key_of before) (key_of image))) }
{
    row_holds(level, i, b) && orders::compare_images(code, before, image).is_gt()
}

// The rows behind row `from`, up to row `to`.
fn rest_holds(
    level: &[u16],
    from: usize,
    to: usize,
    b: Bounds,
    code: u16,
    table: &[u16],
    n: usize,
) -> bool
    requires { (from < to) × (to * row_length ≤ length level.now) × (n * image_length ≤ length table.now) × Tabled n table.now }
    ensures { result ≡ all_hold? (follows? b (table_order code (table_of n table.now)) level.now) (from + 1) (to - (from + 1)) }
{
    let mut before = tables::image_at(level, from, table, n);
    for i in from + 1..to {
        let image = tables::image_at(level, i, table, n);
        if !follows(level, i, b, code, before, image) {
            return false;
        }
        before = image;
    }
    true
}

// The vector from row `from` up to row `to`, of at most so many terms.
fn vector_holds(
    level: &[u16],
    from: usize,
    to: usize,
    most: usize,
    b: Bounds,
    code: u16,
    table: &[u16],
    n: usize,
) -> bool
    requires { (level_length ≤ length level.now) × (n * image_length ≤ length table.now) × Tabled n table.now }
    ensures { result ≡ vector_holds? b most (table_order code (table_of n table.now)) level.now from to }
{
    from < to
        && to <= words::MOST_ROWS
        && to - from <= most
        && row_holds(level, from, b)
        && rest_holds(level, from, to, b, code, table, n)
}

// Vectors by their ends.
fn vectors_hold(
    level: &[u16],
    ends: &[u16],
    r: usize,
    most: usize,
    b: Bounds,
    code: u16,
    table: &[u16],
    n: usize,
) -> bool
    requires { (r ≤ length ends.now) × (level_length ≤ length level.now) × (n * image_length ≤ length table.now) × Tabled n table.now }
    ensures { result ≡ vectors_hold? b most (table_order code (table_of n table.now)) level.now 0 (take r ends.now) }
{
    let mut from: usize = 0;
    for j in 0..r {
        let to = words::place(ends[j]);
        if !vector_holds(level, from, to, most, b, code, table, n) {
            return false;
        }
        from = to;
    }
    true
}

// ## Levels

// How many vectors level k has.
pub fn count_of(state: &[u16], k: usize) -> usize
    requires { (state_length ≤ length state.now) × (k < all_levels) }
    ensures { result ≡ count_at state.now k }
{
    words::place(state[words::HEADER_LENGTH + k * words::COUNTS_LENGTH])
}

// How many the level below has.
fn count_under(state: &[u16], k: usize) -> usize
    requires { (state_length ≤ length state.now) × (k ≤ all_levels) }
    ensures { result ≡ count_below state.now k }
{
    if k == 0 {
        return 0;
    }
    count_of(state, k - 1)
}

// Level k: from low to high vectors, of at most so many terms each.
fn level_holds(
    state: &[u16],
    k: usize,
    low: u16,
    high: u16,
    most: usize,
    b: Bounds,
    code: u16,
    table: &[u16],
    n: usize,
) -> bool
    requires { (state_length ≤ length state.now) × (k < all_levels) × (high ≤ most_vectors) × (n * image_length ≤ length table.now)
        × Tabled n table.now }
    ensures { result ≡ level_holds? low high most b (table_order code (table_of n table.now)) state.now k }
{
    let at = words::HEADER_LENGTH + k * words::COUNTS_LENGTH;
    let count = state[at];
    let start = words::ROWS_START + k * words::LEVEL_LENGTH;
    words::between(low, count, high)
        && vectors_hold(
            &state[start..],
            &state[at + 1..],
            words::place(count),
            most,
            b,
            code,
            table,
            n,
        )
}

// Level k, over the table of images of its module.
fn level_test(state: &[u16], k: usize, table: &[u16], n: usize) -> bool
    requires { (state_length ≤ length state.now) × (k < all_levels) × (n * image_length ≤ length table.now) × Tabled n table.now }
    ensures { result ≡ level_test? state.now k (table_of n table.now) }
{
    let p = state[0];
    let v = state[1];
    let code = state[2];
    if k == 0 {
        let b = row_bounds(p, v, state[3]);
        return level_holds(
            state,
            k,
            1,
            words::MOST_ELEMENTS,
            words::MOST_ROWS,
            b,
            code,
            table,
            n,
        );
    }
    let b = row_bounds(
        p,
        v,
        state[words::HEADER_LENGTH + (k - 1) * words::COUNTS_LENGTH],
    );
    level_holds(
        state,
        k,
        0,
        words::MOST_VECTORS_U16,
        words::MOST_TERMS,
        b,
        code,
        table,
        n,
    )
}

// ## Tables of images

// The table over levels 0 to k − 1 goes from above to below, the one over level k too is made from it.
pub fn advance(below: &mut [u16], above: &mut [u16], state: &[u16], k: usize)
    requires { (state_length ≤ length state.now) × (k < all_levels) × (images_length ≤ length below.old) × (images_length ≤ length above.old)
        × (count_below state.now k ≤ most_vectors) × (count_at state.now k ≤ most_vectors)
        × Cut (count_at state.now k) (rows_from state.now k) (ends_from state.now k) × Tabled (count_below state.now k) above.old }
    ensures { Advanced state.now k above.old below.new above.new }
{
    let n = count_under(state, k);
    terms::copy(below, 0, above, n * words::IMAGE_LENGTH);
    let r = count_of(state, k);
    let start = words::ROWS_START + k * words::LEVEL_LENGTH;
    let ends = words::ENDS_START + k * words::COUNTS_LENGTH;
    tables::fill_images(above, &state[start..], &state[ends..], r, below, n);
}

// Levels 0 to h − 1, each over the table of the ones below it.
fn levels_hold(below: &mut [u16], above: &mut [u16], state: &[u16], h: usize) -> bool
    requires { (state_length ≤ length state.now) × (h ≤ all_levels) × (images_length ≤ length below.old) × (images_length ≤ length above.old) }
    ensures { result ≡ levels_hold? state.now h }
{
    for k in 0..h {
        let n = count_under(state, k);
        if !level_test(state, k, above, n) {
            return false;
        }
        advance(below, above, state, k);
    }
    true
}

// ## The state

// The four numbers, and levels 0 to h − 1.
fn basis_holds(state: &[u16], h: usize) -> bool
    requires { (state_length ≤ length state.now) × (h ≤ all_levels) }
    ensures { result ≡ basis_holds? state.now h }
{
    let q = read_parameters(state);
    if !(field::prime_in_range(q.p) && parameters::in_ranges(q)) {
        return false;
    }
    let mut below = [0u16; words::IMAGES_LENGTH];
    let mut above = [0u16; words::IMAGES_LENGTH];
    levels_hold(&mut below, &mut above, state, h)
}

// Whether the contents are those of a state with an accepted basis: the test behind 11.
pub fn sound(state: &[u16]) -> bool
    requires { state_length ≤ length state.now }
    ensures { result ≡ holds_state? document_01 state.now }
{
    let h = words::place(state[4]);
    if h == 0 || words::ALL_LEVELS < h {
        return false;
    }
    basis_holds(state, h) && degrees::hold(state, h)
}
