// The public library: crate calls' functions under their names, for programs in other languages. include/tagetessash.h declares them.
// Each export calls the function of its name and promises what that does.
// A slice is a pointer and a length.
#![tactic(auto)]

ghost use Rattle.std.specs.Prelude.{◌≡◌, ℕ};
ghost use Rattle.definitions.specs.Limits.{document_01};
ghost use Rattle.definitions.specs.Sheet.{sheet as sheet_definition};
ghost use Rattle.definitions.specs.Betti.{betti as betti_definition};
ghost use Rattle.definitions.specs.Minimal.{minimal as minimal_definition};
ghost use Rattle.definitions.specs.Bidegrees.{bidegrees as bidegrees_definition};
ghost use Rattle.definitions.specs.Hilbert.{hilbert as hilbert_definition};
ghost use Rattle.definitions.specs.Membership.{membership as membership_definition};
ghost use Rattle.definitions.specs.Completing.{completing as completing_definition};
ghost use Rattle.definitions.specs.Replay.{replay as replay_definition};
ghost use Rattle.definitions.specs.Places.{sheet_length, page_length, bidegrees_length, hilbert_length, member_length, completed_length, replay_length};
ghost use Rattle.lift_call.specs.Codes.{coded_way};
ghost use Rattle.lending.specs.Called.{told_of, called};
ghost use Rattle.calls.specs.Version.{version, minor};
ghost use Rattle.calls.specs.Coded.{ReadSays, LiftSays, FetchSays, DivideSays};

#[unsafe(no_mangle)]
pub extern "C" fn tagetessash_read(
    file: &[u8],
    state: &mut [u16],
    work: &mut [u16],
    place: &mut usize,
) -> u16
    ensures { ReadSays result place.new state.new work.new file.now state.old
        work.old }
{
    calls::tagetessash_read(file, state, work, place)
}

#[unsafe(no_mangle)]
pub extern "C" fn tagetessash_lift(
    state: &mut [u16],
    work: &mut [u16],
    cache: &mut [u16],
    level: usize,
    way: u16,
    pick: u16,
    place: &mut usize,
) -> u16
    ensures { LiftSays result place.new state.new work.new cache.new level (coded_way way pick)
        state.old work.old cache.old }
{
    calls::tagetessash_lift(state, work, cache, level, way, pick, place)
}

#[unsafe(no_mangle)]
pub extern "C" fn tagetessash_fetch(
    state: &[u16],
    out: &mut [u16],
    level: usize,
    vector: usize,
    place: &mut usize,
) -> u16
    ensures { FetchSays result place.new out.new level vector state.now out.old }
{
    calls::tagetessash_fetch(state, out, level, vector, place)
}

#[unsafe(no_mangle)]
pub extern "C" fn tagetessash_divide(
    state: &[u16],
    vector: &[u16],
    quotients: &mut [u16],
    remainder: &mut [u16],
    place: &mut usize,
) -> u16
    ensures { DivideSays result place.new quotients.new remainder.new state.now vector.now
        quotients.old remainder.old }
{
    calls::tagetessash_divide(state, vector, quotients, remainder, place)
}

#[unsafe(no_mangle)]
pub extern "C" fn tagetessash_sheet(
    file: &[u8],
    state: &mut [u16],
    work: &mut [u16],
    out: &mut [u8],
    length: &mut usize,
) -> u16
    ensures { (n : ℕ) × (told_of result length.new state.new work.new out.new ≡ called sheet_length
        (sheet_definition document_01) n file.now state.old work.old out.old) }
{
    calls::tagetessash_sheet(file, state, work, out, length)
}

#[unsafe(no_mangle)]
pub extern "C" fn tagetessash_betti(
    file: &[u8],
    state: &mut [u16],
    work: &mut [u16],
    out: &mut [u8],
    length: &mut usize,
) -> u16
    ensures { (n : ℕ) × (told_of result length.new state.new work.new out.new ≡ called page_length
        (betti_definition document_01) n file.now state.old work.old out.old) }
{
    calls::tagetessash_betti(file, state, work, out, length)
}

#[unsafe(no_mangle)]
pub extern "C" fn tagetessash_minimal(
    file: &[u8],
    state: &mut [u16],
    work: &mut [u16],
    out: &mut [u8],
    length: &mut usize,
) -> u16
    ensures { (n : ℕ) × (told_of result length.new state.new work.new out.new ≡ called page_length
        (minimal_definition document_01) n file.now state.old work.old out.old) }
{
    calls::tagetessash_minimal(file, state, work, out, length)
}

#[unsafe(no_mangle)]
pub extern "C" fn tagetessash_bidegrees(
    file: &[u8],
    state: &mut [u16],
    work: &mut [u16],
    out: &mut [u8],
    length: &mut usize,
) -> u16
    ensures { (n : ℕ) × (told_of result length.new state.new work.new out.new ≡ called bidegrees_length
        (bidegrees_definition document_01) n file.now state.old work.old out.old) }
{
    calls::tagetessash_bidegrees(file, state, work, out, length)
}

#[unsafe(no_mangle)]
pub extern "C" fn tagetessash_hilbert(
    file: &[u8],
    state: &mut [u16],
    work: &mut [u16],
    out: &mut [u8],
    length: &mut usize,
) -> u16
    ensures { (n : ℕ) × (told_of result length.new state.new work.new out.new ≡ called hilbert_length
        (hilbert_definition document_01) n file.now state.old work.old out.old) }
{
    calls::tagetessash_hilbert(file, state, work, out, length)
}

#[unsafe(no_mangle)]
pub extern "C" fn tagetessash_member(
    input: &[u8],
    state: &mut [u16],
    work: &mut [u16],
    out: &mut [u8],
    length: &mut usize,
) -> u16
    ensures { (n : ℕ) × (told_of result length.new state.new work.new out.new ≡ called member_length
        (membership_definition document_01) n input.now state.old work.old out.old) }
{
    calls::tagetessash_member(input, state, work, out, length)
}

#[unsafe(no_mangle)]
pub extern "C" fn tagetessash_completed(
    file: &[u8],
    state: &mut [u16],
    work: &mut [u16],
    out: &mut [u8],
    length: &mut usize,
) -> u16
    ensures { (n : ℕ) × (told_of result length.new state.new work.new out.new ≡ called completed_length
        (completing_definition document_01) n file.now state.old work.old out.old) }
{
    calls::tagetessash_completed(file, state, work, out, length)
}

#[unsafe(no_mangle)]
pub extern "C" fn tagetessash_replay(
    input: &[u8],
    state: &mut [u16],
    work: &mut [u16],
    out: &mut [u8],
    length: &mut usize,
) -> u16
    ensures { (n : ℕ) × (told_of result length.new state.new work.new out.new ≡ called replay_length
        (replay_definition document_01) n input.now state.old work.old out.old) }
{
    calls::tagetessash_replay(input, state, work, out, length)
}

#[unsafe(no_mangle)]
pub extern "C" fn tagetessash_version() -> u16
    ensures { result ≡ version }
{
    calls::tagetessash_version()
}

#[unsafe(no_mangle)]
pub extern "C" fn tagetessash_minor() -> u16
    ensures { result ≡ minor }
{
    calls::tagetessash_minor()
}
