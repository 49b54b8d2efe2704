// The three calls, the one that divides a lent vector, and the sheet, the Betti page, the minimal numbers, the bidegrees, the Hilbert function, membership,
// the completed file and a replayed log as one each, for programs in other languages: crate calls_c exports them, include/tagetessash.h declares them.
// Exists for: `tagetessash_read`, `tagetessash_lift`, `tagetessash_fetch`, `tagetessash_divide`, `tagetessash_sheet`, `tagetessash_betti`,
// `tagetessash_minimal`, `tagetessash_bidegrees`, `tagetessash_hilbert`, `tagetessash_member`, `tagetessash_completed`, `tagetessash_replay`;
// `Making.all_calls`.
// Knows: crates read_call, fetch_call, lift_call, divide_call, sheet and page_calls.
#![tactic(auto)]

ghost use Rattle.std.specs.Prelude.{◌≡◌, ℕ};
ghost use Rattle.definitions.specs.Limits.{document_01};
ghost use Rattle.definitions.specs.Sheet.{sheet as sheet_definition};
ghost use Rattle.definitions.specs.Betti.{betti as betti_definition};
ghost use Rattle.definitions.specs.Minimal.{minimal as minimal_definition};
ghost use Rattle.definitions.specs.Bidegrees.{bidegrees as bidegrees_definition};
ghost use Rattle.definitions.specs.Hilbert.{hilbert as hilbert_definition};
ghost use Rattle.definitions.specs.Membership.{membership as membership_definition};
ghost use Rattle.definitions.specs.Completing.{completing as completing_definition};
ghost use Rattle.definitions.specs.Replay.{replay as replay_definition};
ghost use Rattle.definitions.specs.Places.{sheet_length, page_length, bidegrees_length, hilbert_length, member_length, completed_length, replay_length};
ghost use Rattle.lift_call.specs.Codes.{coded_way};
ghost use Rattle.lending.specs.Called.{told_of, called};
ghost use Rattle.calls.specs.Version.{version, minor};
ghost use Rattle.calls.specs.Coded.{ReadSays, LiftSays, FetchSays, DivideSays};

// "read a file and accept or refuse its basis"
pub fn tagetessash_read(file: &[u8], state: &mut [u16], work: &mut [u16], place: &mut usize) -> u16
    ensures { ReadSays result place.new state.new work.new file.now state.old
        work.old }
{
    let r = read_call::read(file, state, work);
    *place = r.place;
    r.number
}

// "form the frame of level k and lift all its terms, in number order, by one of three ways"
pub fn tagetessash_lift(
    state: &mut [u16],
    work: &mut [u16],
    cache: &mut [u16],
    level: usize,
    way: u16,
    pick: u16,
    place: &mut usize,
) -> u16
    ensures { LiftSays result place.new state.new work.new cache.new level (coded_way way pick)
        state.old work.old cache.old }
{
    let w = lift_call::way_by(way, pick);
    let r = lift_call::lift(state, work, cache, level, w);
    *place = r.place;
    r.number
}

// "fetch vector v of level k"
pub fn tagetessash_fetch(
    state: &[u16],
    out: &mut [u16],
    level: usize,
    vector: usize,
    place: &mut usize,
) -> u16
    ensures { FetchSays result place.new out.new level vector state.now out.old }
{
    let r = fetch_call::fetch(state, out, level, vector);
    *place = r.place;
    r.number
}

// "quotients applied to the elements plus the remainder give the vector back": of a lent vector, by the elements of the state.
pub fn tagetessash_divide(
    state: &[u16],
    vector: &[u16],
    quotients: &mut [u16],
    remainder: &mut [u16],
    place: &mut usize,
) -> u16
    ensures { DivideSays result place.new quotients.new remainder.new state.now vector.now
        quotients.old remainder.old }
{
    let r = divide_call::divide(state, vector, quotients, remainder);
    *place = r.place;
    r.number
}

// "The sheet printed": 0, and its bytes are the first `length` of out; or 16.
pub fn tagetessash_sheet(
    file: &[u8],
    state: &mut [u16],
    work: &mut [u16],
    out: &mut [u8],
    length: &mut usize,
) -> u16
    ensures { (n : ℕ) × (told_of result length.new state.new work.new out.new ≡ called sheet_length
        (sheet_definition document_01) n file.now state.old work.old out.old) }
{
    let r = sheet::sheet(file, state, work, out);
    *length = r.length;
    r.number
}

// "Betti page": 0, and its bytes are the first `length` of out; or 16.
pub fn tagetessash_betti(
    file: &[u8],
    state: &mut [u16],
    work: &mut [u16],
    out: &mut [u8],
    length: &mut usize,
) -> u16
    ensures { (n : ℕ) × (told_of result length.new state.new work.new out.new ≡ called page_length
        (betti_definition document_01) n file.now state.old work.old out.old) }
{
    let page = page_calls::betti(file, state, work, out);
    *length = page.length;
    page.number
}

// "Minimal Betti numbers": 0, and the bytes of their page are the first `length` of out; or 16.
pub fn tagetessash_minimal(
    file: &[u8],
    state: &mut [u16],
    work: &mut [u16],
    out: &mut [u8],
    length: &mut usize,
) -> u16
    ensures { (n : ℕ) × (told_of result length.new state.new work.new out.new ≡ called page_length
        (minimal_definition document_01) n file.now state.old work.old out.old) }
{
    let numbers = page_calls::minimal(file, state, work, out);
    *length = numbers.length;
    numbers.number
}

// "Two degrees side by side": 0, and the bytes of the lines are the first `length` of out; or 16.
pub fn tagetessash_bidegrees(
    file: &[u8],
    state: &mut [u16],
    work: &mut [u16],
    out: &mut [u8],
    length: &mut usize,
) -> u16
    ensures { (n : ℕ) × (told_of result length.new state.new work.new out.new ≡ called bidegrees_length
        (bidegrees_definition document_01) n file.now state.old work.old out.old) }
{
    let lines = page_calls::bidegrees(file, state, work, out);
    *length = lines.length;
    lines.number
}

// "Hilbert function": 0, and its lines are the first `length` bytes of out; or 16.
pub fn tagetessash_hilbert(
    file: &[u8],
    state: &mut [u16],
    work: &mut [u16],
    out: &mut [u8],
    length: &mut usize,
) -> u16
    ensures { (n : ℕ) × (told_of result length.new state.new work.new out.new ≡ called hilbert_length
        (hilbert_definition document_01) n file.now state.old work.old out.old) }
{
    let values = page_calls::hilbert(file, state, work, out);
    *length = values.length;
    values.number
}

// "Is this vector in the module?": 0, and the lines of a file and the V lines after it are the first `length` bytes of out; or 16.
pub fn tagetessash_member(
    input: &[u8],
    state: &mut [u16],
    work: &mut [u16],
    out: &mut [u8],
    length: &mut usize,
) -> u16
    ensures { (n : ℕ) × (told_of result length.new state.new work.new out.new ≡ called member_length
        (membership_definition document_01) n input.now state.old work.old out.old) }
{
    let found = page_calls::member(input, state, work, out);
    *length = found.length;
    found.number
}

// "Completing a basis": 0, and the completed file is the first `length` bytes of out, or a refusal's X line; or 16.
pub fn tagetessash_completed(
    file: &[u8],
    state: &mut [u16],
    work: &mut [u16],
    out: &mut [u8],
    length: &mut usize,
) -> u16
    ensures { (n : ℕ) × (told_of result length.new state.new work.new out.new ≡ called completed_length
        (completing_definition document_01) n file.now state.old work.old out.old) }
{
    let completed = page_calls::complete(file, state, work, out);
    *length = completed.length;
    completed.number
}

// "replays them in place of a pick code": 0, and the S lines of the vector that an L line and P lines after a file give are the first `length` bytes of out,
// or a refusal's X line; or 16.
pub fn tagetessash_replay(
    input: &[u8],
    state: &mut [u16],
    work: &mut [u16],
    out: &mut [u8],
    length: &mut usize,
) -> u16
    ensures { (n : ℕ) × (told_of result length.new state.new work.new out.new ≡ called replay_length
        (replay_definition document_01) n input.now state.old work.old out.old) }
{
    let replayed = page_calls::replay(input, state, work, out);
    *length = replayed.length;
    replayed.number
}

// Which version of the calls, of the state's layout and of the sheet this library has.
pub fn tagetessash_version() -> u16
    ensures { result ≡ version }
{
    3
}

// What was added to this version: the header says with which number what came.
pub fn tagetessash_minor() -> u16
    ensures { result ≡ minor }
{
    9
}
