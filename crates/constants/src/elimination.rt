// Elimination modulo p of a matrix in the words of a lent slice, in place: each row is marked by whether it was zero when its turn came.
// Knows: crate ranks' Elimination.
// A row begins at every 128th word; what is left of the matrix is nobody's concern.
ghost use Rattle.std.specs.Prelude.{◌≡◌, ◌∷◌, ◌+◌, ◌-◌, ◌*◌, ◌≤◌, ◌<◌, length, drop, get_or, IfSome};
ghost use Rattle.std.proofs.Math.Seq.{paste};
ghost use Rattle.definitions.specs.Lists.{map};
ghost use Rattle.definitions.specs.Field.{plus, times as times_definition, inverse as inverse_definition};
ghost use Rattle.definitions.specs.Places.{most_vectors};
ghost use Rattle.columns.specs.mixed.Placed.{place_of};
ghost use Rattle.ranks.specs.Elimination.{pivot as pivot_definition, add_multiple as add_multiple_definition, cleared, marks_of, marks as marks_definition};
ghost use Rattle.constants.specs.elimination.Rows.{row_words, rows_at};

// ## A row

// The first column of the n words from word `at` on that is not zero.
fn pivot(s: &[u16], at: usize, n: usize, p: u16) -> Option<usize>
    requires { (0 < p) × (at + n ≤ length s.now) }
    ensures { (place_of result ≡ pivot_definition p (row_words s.now at n)) × IfSome result (λ c. c < n) }
{
    for j in 0..n {
        if s[at + j] % p != 0 {
            return Some(j);
        }
    }
    None
}

// y + t·x modulo p, by one division.
fn plus_product(y: u16, t: u16, x: u16, p: u16) -> u16
    requires { 0 < p }
    ensures { result ≡ plus p y (times_definition p t x) }
{
    ((u32::from(y) + u32::from(t) * u32::from(x)) % u32::from(p)) as u16
}

// t times the row at word a added to the row at word b, behind it.
fn add_multiple(s: &mut [u16], a: usize, b: usize, n: usize, t: u16, p: u16)
    requires { (0 < p) × (a + n ≤ b) × (b + n ≤ length s.old) }
    ensures { s.new ≡ paste s.old b (add_multiple_definition p t (row_words s.old a n)
        (row_words s.old b n)) n }
{
    for j in 0..n {
        s[b + j] = plus_product(s[b + j], t, s[a + j], p);
    }
}

// Column c of the row at word b cleared by the row at word a, x being the inverse of its word there. Most are clear.
fn clear(s: &mut [u16], a: usize, b: usize, n: usize, c: usize, x: u16, p: u16)
    requires { (0 < p) × (a + n ≤ b) × (b + n ≤ length s.old) × (c < n) × (x ≡ inverse_definition p (get_or (row_words s.old a n) c 0)) }
    ensures { s.new ≡ paste s.old b (cleared p c (row_words s.old a n) (row_words s.old b n)) n }
{
    let w = s[b + c];
    if w % p == 0 {
        return;
    }
    let y = field::times(w, x, p);
    let t = field::negative(y, p);
    add_multiple(s, a, b, n, t, p);
}

// ## Rows

// .. of so many rows from word b on.
fn clear_rows(s: &mut [u16], a: usize, b: usize, rows: usize, n: usize, c: usize, x: u16, p: u16)
    requires { (0 < p) × (n ≤ most_vectors) × (a + n ≤ b) × (b + rows * most_vectors ≤ length s.old) × (c < n)
        × (x ≡ inverse_definition p (get_or (row_words s.old a n) c 0)) }
    ensures { (length s.new ≡ length s.old)
        × (rows_at n rows (drop b s.new) ≡ map (cleared p c (row_words s.old a n)) (rows_at n rows (drop b s.old))) }
{
    for k in 0..rows {
        clear(s, a, b + k * words::MOST_VECTORS, n, c, x, p);
    }
}

// Row i's mark; its first column that is not zero is cleared in the rows behind it.
fn step(s: &mut [u16], i: usize, rows: usize, n: usize, p: u16) -> u16
    requires { (1 < p) × (n ≤ most_vectors) × (i < rows) × (rows * most_vectors ≤ length s.old) }
    ensures { (length s.new ≡ length s.old)
        × (result ∷ marks_of p (rows - (i + 1)) (rows_at n (rows - (i + 1)) (drop ((i + 1) * most_vectors) s.new))
        ≡ marks_of p (rows - i) (rows_at n (rows - i) (drop (i * most_vectors) s.old))) }
{
    let a = i * words::MOST_VECTORS;
    let Some(c) = pivot(s, a, n, p) else {
        return 0;
    };
    let x = field::inverse(s[a + c], p);
    clear_rows(s, a, a + words::MOST_VECTORS, rows - (i + 1), n, c, x, p);
    1
}

// The marks of all rows, from word `at` on.
pub fn mark_rows(m: &mut [u16], marks: &mut [u16], at: usize, rows: usize, n: usize, p: u16)
    requires { (1 < p) × (n ≤ most_vectors) × (rows * most_vectors ≤ length m.old) × (at + rows ≤ length marks.old) }
    ensures { marks.new ≡ paste marks.old at (marks_definition p (rows_at n rows m.old)) rows }
{
    for i in 0..rows {
        marks[at + i] = step(m, i, rows, n, p);
    }
}
