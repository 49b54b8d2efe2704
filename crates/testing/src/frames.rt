// Frames for programs in other languages: their tests against the unrelated implementation call crate frame through this function.
// Knows: crate frame's `form`, 15 and 16.
// No code of the engine calls it.
ghost use Rattle.std.specs.Prelude.{◌≡◌};
ghost use Rattle.testing.specs.Frames.{told, called};

// The frame terms of r leading rows, numbered by the order code, into the rows of d; stores how many they are. 15 where they are more than the limit,
// 16 where a slice is too short.
pub fn frames_form(
    d: &mut [u16],
    limit: usize,
    c: &mut [u16],
    heads: &[u16],
    r: usize,
    code: u16,
    count: &mut usize,
) -> u16
    ensures { told result count.new d.new ≡ called d.old limit c.old heads.now r code }
{
    *count = 0;
    if 65535 < r
        || d.len() / words::ROW_LENGTH < limit
        || c.len() / words::ROW_LENGTH < r
        || heads.len() / words::ROW_LENGTH < r
    {
        return 16;
    }
    let Some(n) = frame::form(d, limit, c, heads, r, code) else {
        return 15;
    };
    *count = n;
    0
}
