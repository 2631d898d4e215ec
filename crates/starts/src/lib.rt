// All starts in one go: for each listed place the length of the first shortest chain to one finishing place, out of one search.
// It goes back from the finishing place until nothing waits, so that every state from which that place is reached has its distance. A listed
// place then has the distance of the nearest of its first states.
#![tactic(auto)]

ghost use Rattle.std.specs.Prelude.{◌≡◌, true, ◌<◌, ◌≤◌, length, get_or};
ghost use Rattle.meaning.specs.Windows.{plain};
ghost use Rattle.meaning.specs.Request.{all_below, ask_starts, work_after};
ghost use Rattle.windows.specs.Promise.{options_shown};
ghost use Rattle.request.specs.Layout.{Laid};
ghost use Rattle.search.specs.Loaded.{setting_at};
ghost use Rattle.states.specs.Pairs.{distances};
ghost use Rattle.states.specs.Spots.{Fit};
ghost use Rattle.forward.specs.Posed.{SomePosed};
ghost use Rattle.starts.specs.Highest.{highest_of};
ghost use Rattle.starts.specs.Lengths.{length_by, length_at, written, Searched, RightFor};
ghost use Rattle.starts.specs.Promise.{starts_reply, starts_of, told, lengths_after, Shortest};

use refusals::OutputError;
use request::Plan;
use windows::Options;

// ---- question 15

// The highest of all places asked about, the listed ones and the finishing place: all are below a count exactly where it is.
fn highest(starts: &[u16], to: u16) -> u16
    ensures { result ≡ highest_of starts.now to }
{
    starts.iter().fold(to, |most, &place| most.max(place))
}

// ---- the lengths

// The length that a distance's word says; 4,294,967,295 where there is none.
fn length_by(word: u32) -> u32
    ensures { result ≡ length_by word }
{
    word.checked_sub(1).unwrap_or(u32::MAX)
}

// The length from one place. Where a place's first states are looked at, it is here.
fn length_at(work: &[u32], plan: Plan, begin: u64, from: usize) -> u32
    requires laid { Laid plan (length work.now) }
    requires from_lt_places { from < plan.places }
    ensures { result ≡ length_at plan begin (distances plan work.now) from }
{
    length_by(forward::nearest(work, plan, begin, from))
}

// The lengths from the listed places, in the list's order, at the front of `lengths`.
fn write_lengths(work: &[u32], plan: Plan, begin: u64, starts: &[u16], lengths: &mut [u32])
    requires laid { Laid plan (length work.now) }
    requires starts_value { (all_below plan.places starts.now ≡ true) × (length starts.now ≤ length lengths.old) }
    ensures { lengths.new ≡ written (length_at plan begin (distances plan work.now)) starts.now lengths.old }
{
    for (i, &place) in starts.iter().enumerate() {
        lengths[i] = length_at(work, plan, begin, usize::from(place));
    }
}

// ---- one search

// In an area into which the record is loaded: the search until nothing waits, and the lengths.
fn search_once(
    work: &mut [u32],
    plan: Plan,
    program: &[u64; 128],
    begin: u64,
    starts: &[u16],
    to: usize,
    lengths: &mut [u32],
)
    requires fit { Fit plan program.now work.old }
    requires starts_value { (all_below plan.places starts.now ≡ true) × (to < plan.places) }
    requires starts_in_bounds { length starts.now ≤ length lengths.old }
    ensures { Searched (setting_at program.now plan work.old) plan begin starts.now to lengths.old lengths.new }
{
    ways::file_lines(work, plan, program);
    backward::all_distances(work, plan, program, to);
    write_lengths(work, plan, begin, starts, lengths);
}

// The search of a request whose record is loaded. The pattern's automaton stands in this function's frame.
fn search_loaded(
    pattern: &[u8],
    plan: Plan,
    starts: &[u16],
    to: usize,
    work: &mut [u32],
    lengths: &mut [u32],
)
    requires some_posed { SomePosed pattern.now plan to to work.old }
    requires starts_value { all_below plan.places starts.now ≡ true }
    requires starts_in_bounds { length starts.now ≤ length lengths.old }
    ensures { RightFor pattern.now plan starts.now to work.old lengths.old lengths.new }
{
    let mut program: [u64; 128] = [0; 128];
    let begin = compiler::compile(pattern, &mut program);
    search_once(work, plan, &program, begin, starts, to, lengths)
}

// All questions, 15 of every listed place and of the finishing place, then 19: do the lengths fit? Then the search: the length of the
// first shortest chain from each listed place to the finishing place, or 4,294,967,295 where there is none. The area stays untouched where
// a question up to 17 is answered no, and is all zeros after every other reply; the lengths stand in front, in the list's order, and all
// other words stay.
pub fn all_starts_with(
    day: &[u8],
    pattern: &[u8],
    starts: &[u16],
    to: u16,
    options: Options,
    work: &mut [u32],
    lengths: &mut [u32],
) -> Result<usize, OutputError>
    ensures reply { starts_reply result ≡ told (starts_of day.now pattern.now starts.now to (options_shown options) (length work.old) (length lengths.old)) }
    ensures workspace { work.new ≡ work_after (ask_starts day.now pattern.now starts.now to (options_shown options) (length work.old)) work.old }
    ensures lengths { lengths.new ≡ lengths_after (starts_of day.now pattern.now starts.now to (options_shown options) (length work.old) (length lengths.old)) lengths.old }
    ensures shortest { Shortest day.now pattern.now starts.now to (options_shown options) (starts_reply result) lengths.new }
{
    let mut numbers: [u16; 4096] = [0; 4096];
    let most = highest(starts, to);
    let plan = request::ask_request(day, pattern, most, to, options, work.len(), &mut numbers)?;
    if lengths.len() < starts.len() {
        request::clear(work);
        return Err(OutputError::TooSmall(starts.len()));
    }
    request::load(day, plan, &numbers, options, work);
    search_loaded(pattern, plan, starts, to as usize, work, lengths);
    request::clear(work);
    Ok(starts.len())
}

// The same for the whole day.
pub fn all_starts(
    day: &[u8],
    pattern: &[u8],
    starts: &[u16],
    to: u16,
    work: &mut [u32],
    lengths: &mut [u32],
) -> Result<usize, OutputError>
    ensures reply { starts_reply result ≡ told (starts_of day.now pattern.now starts.now to plain (length work.old) (length lengths.old)) }
    ensures workspace { work.new ≡ work_after (ask_starts day.now pattern.now starts.now to plain (length work.old)) work.old }
    ensures lengths { lengths.new ≡ lengths_after (starts_of day.now pattern.now starts.now to plain (length work.old) (length lengths.old)) lengths.old }
    ensures shortest { Shortest day.now pattern.now starts.now to plain (starts_reply result) lengths.new }
{
    all_starts_with(
        day,
        pattern,
        starts,
        to,
        windows::whole_day(),
        work,
        lengths,
    )
}
