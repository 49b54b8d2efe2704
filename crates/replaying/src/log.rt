// The P lines of a log, one by one, each tested and replayed before the next is looked at.
// Knows: crate definitions' Replay, tests of P lines.
// The first bad line ends it, however many bytes follow.
ghost use Rattle.std.specs.Prelude.{◌≡◌, ◌+◌, ◌≤◌, length, drop};
ghost use Rattle.definitions.specs.Limits.{document_01};
ghost use Rattle.definitions.specs.Monomial as definition;
ghost use Rattle.definitions.specs.Order.{Comparison};
ghost use Rattle.definitions.specs.Problem.{lines};
ghost use Rattle.definitions.specs.Replay.{p_lines};
ghost use Rattle.definitions.specs.Places.{most_picks};
ghost use Rattle.definitions.specs.Places.{read_length};
ghost use Rattle.runs.specs.reduction.Grounds.{ends_in, Tables, Family};
ghost use Rattle.runs.specs.run.Stages.{stage_of, run_of, Rooms};
ghost use Rattle.replaying.specs.log.Lines.{p_first, turn_as, Turned, replayed_as, Ended};

use crate::picks;
use reader::fields;
use runs::reduction::Ground;
use words::refusals::{Refusal, Refused};

// The P line at a position, after so many picks: 21 first, then its pick. Where the line ends, and the rows of value and vector.
fn replay_line(
    input: &[u8],
    at: usize,
    place: usize,
    picks: usize,
    n: usize,
    k: usize,
    value: &mut [u16],
    m: usize,
    vector: &mut [u16],
    u: usize,
    level: &[u16],
    tables: &[u16],
    g: Ground,
) -> Result<(usize, usize, usize), Refused>
    requires { (n ≤ 8) × Tables g tables.now × Family g level.now (ends_in tables.now) × Rooms g value.old vector.old × (m ≤ g.working)
        × (u ≤ g.vector) }
    ensures { ((above : definition.Monomial → definition.Monomial → Comparison) → turn_as result input.now value.new vector.new
        ≡ p_first (stage_of g level.now tables.now above) n k place picks (run_of value.old m vector.old u)
        (drop at input.now)) × Turned g picks result }
{
    let refused = Refused {
        refusal: Refusal::LogLine,
        place,
    };
    let line = fields::line_at(input, at, b'P', n + 1).ok_or(refused)?;
    if words::MOST_PICKS <= picks {
        return Err(refused);
    }
    let (a, b) = picks::replay_pick(
        value,
        m,
        vector,
        u,
        level,
        tables,
        g,
        line.numbers,
        n,
        k,
        place,
    )?;
    Ok((line.next, a, b))
}

// The P lines from a position to the end, the first with this number: the rows of the vector where the value is zero then, 22 where it is not.
pub fn replay_lines(
    input: &[u8],
    from: usize,
    first: usize,
    n: usize,
    k: usize,
    value: &mut [u16],
    start: usize,
    vector: &mut [u16],
    begun: usize,
    level: &[u16],
    tables: &[u16],
    g: Ground,
) -> Result<usize, Refused>
    requires { (n ≤ 8) × (first ≤ read_length + 1) × Tables g tables.now × Family g level.now (ends_in tables.now) × Rooms g value.old vector.old
        × (start ≤ g.working) × (begun ≤ g.vector) }
    ensures { ((above : definition.Monomial → definition.Monomial → Comparison) → replayed_as above g.p result vector.new
        ≡ p_lines most_picks (stage_of g level.now tables.now above) document_01.field n k first 0
        (run_of value.old start vector.old begun) (lines (drop from input.now))) × Ended g result }
{
    let mut at = from;
    let mut picks: usize = 0;
    let mut m = start;
    let mut u = begun;
    // A while: the position jumps by a line.
    while at < input.len() {
        let (next, a, b) = replay_line(
            input,
            at,
            first + picks,
            picks,
            n,
            k,
            value,
            m,
            vector,
            u,
            level,
            tables,
            g,
        )?;
        at = next;
        m = a;
        u = b;
        picks += 1;
    }
    if m == 0 {
        return Ok(u);
    }
    Err(Refused {
        refusal: Refusal::Pick,
        place: first + picks,
    })
}
