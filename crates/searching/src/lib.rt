// A search that is begun, moved on by an amount and finished, while lines may be added to the record. Between the calls it stands in the work area
// alone: begin takes what it needs of lines and pattern into the area, and move and finish see neither.
#![tactic(auto)]

ghost use Rattle.std.specs.Prelude.{◌≡◌, ◌+◌, ◌*◌, ◌≤◌, ◌<◌, length};
ghost use Rattle.meaning.specs.Windows.{plain};
ghost use Rattle.meaning.specs.Request.{ask_search};
ghost use Rattle.windows.specs.Promise.{options_shown};
ghost use Rattle.finder.specs.Promise.{find_reply};
ghost use Rattle.holding.specs.Holding.{tables_at, Sound};
ghost use Rattle.stepping.specs.Stepping.{Standing};
ghost use Rattle.searching.specs.Promise.{begin_reply, begun_told, begun_after, move_reply, Moving, Finishing};
ghost use Rattle.searching.specs.Searching.{front_of, ReadyToBegin, BegunIn, TurnedBy, MovedIn, ReadOut, FinishedIn};

use holding::{Counters, SearchState};
use refusals::{OutputError, Refusal};
use request::{Plan, TABLES};
use stepping::Going;
use windows::Options;

// ---- begin

// The pattern's bytes, a word each.
fn put_bytes(pattern: &[u8], part: &mut [u32])
    requires { length part.old ≡ length pattern.now }
    ensures { part.new ≡ pattern.now }
{
    for (i, &byte) in pattern.iter().enumerate() {
        part[i] = u32::from(byte);
    }
}

// The numbers that stay, in front of the area, and the pattern's bytes.
fn put_front(work: &mut [u32], plan: Plan, from: usize, pattern: &[u8])
    requires tables_at_in_bounds { (tables_at ≤ length work.old) × (length pattern.now ≤ 192) }
    requires radix_bound { (plan.radix < 4294967296) × (plan.places < 4294967296) × (plan.lines < 4294967296) × (from < 4294967296) }
    ensures { work.new ≡ front_of plan from pattern.now work.old }
{
    let numbers = [
        plan.radix as u32,
        plan.places as u32,
        plan.lines as u32,
        from as u32,
        pattern.len() as u32,
    ];
    work[..5].copy_from_slice(&numbers);
    put_bytes(pattern, &mut work[17..17 + pattern.len()]);
}

// The goal is found, and nothing is taken up. The record is loaded, and every other word is 0.
fn begin_loaded(work: &mut [u32], plan: Plan, pattern: &[u8], from: usize, to: usize)
    requires { ReadyToBegin pattern.now plan from to work.old }
    ensures { BegunIn pattern.now plan from to work.old work.new }
{
    let mut program: [u64; 128] = [0; 128];
    let begin = compiler::compile(pattern, &mut program);
    let goal = states::state_at(plan, to, plan.done, 0);
    let found = area::push_if_new(work, plan.base, plan.size, 1, goal, 0);
    let at = Counters {
        phase: 0,
        expanded: 0,
        found: found as u32,
        far: 0,
        rest: 0,
        chosen: 0,
        noted: 0,
    };
    let begun = stepping::settle(work, SearchState { plan, from, at }, begin);
    put_front(work, plan, from, pattern);
    begun.at.put_back(work);
}

// All questions up to 17, where 17 asks for three more words for each line. Lines and pattern are taken into the area, and no state is taken up. The
// area stays untouched where a question is answered no.
pub fn begin_search_with(
    day: &[u8],
    pattern: &[u8],
    from: u16,
    to: u16,
    options: Options,
    work: &mut [u32],
) -> Result<(), Refusal>
    ensures reply { begin_reply result ≡ begun_told (ask_search day.now pattern.now from to (options_shown options) (length work.old)) }
    ensures workspace { work.new ≡ begun_after (ask_search day.now pattern.now from to (options_shown options) (length work.old)) pattern.now from to work.old }
{
    let mut numbers: [u16; 4096] = [0; 4096];
    let plan = request::ask_search(day, pattern, from, to, options, work.len(), &mut numbers)?;
    request::clear(work);
    request::load(day, plan, &numbers, options, work);
    begin_loaded(work, plan, pattern, usize::from(from), usize::from(to));
    Ok(())
}

// The same for the whole day.
pub fn begin_search(
    day: &[u8],
    pattern: &[u8],
    from: u16,
    to: u16,
    work: &mut [u32],
) -> Result<(), Refusal>
    ensures reply { begin_reply result ≡ begun_told (ask_search day.now pattern.now from to plain (length work.old)) }
    ensures workspace { work.new ≡ begun_after (ask_search day.now pattern.now from to plain (length work.old)) pattern.now from to work.old }
{
    begin_search_with(day, pattern, from, to, windows::whole_day(), work)
}

// ---- move

// How many turns end every search of the size.
fn all_turns(size: usize) -> usize
    requires { size ≤ 1048576 }
    ensures { result ≡ 2 * size + 2 }
{
    2 * size + 2
}

// The search moved on by so many turns. The pattern's automaton stands in this function's frame.
fn turned(work: &mut [u32], s: SearchState, pattern: &[u8], turns: usize) -> Going
    requires { Sound work.old pattern.now s }
    ensures { TurnedBy s pattern.now turns work.old result work.new }
{
    let mut program: [u64; 128] = [0; 128];
    let begin = compiler::compile(pattern, &mut program);
    let going = Going {
        state: s,
        left: turns,
    };
    going.moved(work, &program, begin)
}

// The search moved on and put back. Returns how many states were taken up.
fn move_taken(work: &mut [u32], s: SearchState, pattern: &[u8], amount: usize) -> usize
    requires { Sound work.old pattern.now s }
    ensures { MovedIn s pattern.now amount work.old result work.new }
{
    let plan = s.plan;
    let many = amount.min(all_turns(plan.size));
    let moved = turned(work, s, pattern, many);
    area::clear_stretch(
        work,
        plan.base + 4 * plan.size,
        plan.places + 1 + plan.lines,
    );
    moved.state.at.put_back(work);
    many - moved.left
}

// Takes up so many states of the search that the area holds, or all that remain, and says how many. Where the area holds none, or its words were
// altered so that they are no search, the reply is 26 and no word changes.
pub fn move_search(work: &mut [u32], amount: usize) -> Result<usize, Refusal>
    ensures { Moving amount work.old (move_reply result) work.new }
{
    if work.len() < TABLES {
        return Err(Refusal::NoSearch);
    }
    let mut bytes: [u8; 192] = [0; 192];
    let long = holding::pattern_bytes(work, &mut bytes);
    let pattern = &bytes[..long];
    let s = holding::taken_out(work, pattern).ok_or(Refusal::NoSearch)?;
    Ok(move_taken(work, s, pattern, amount))
}

// ---- finish

// The length of the chain by the marks, if the search has one. The chain is written where the output holds it.
fn read_out(work: &[u32], s: SearchState, out: &mut [u16]) -> Option<usize>
    requires { Standing s work.now }
    ensures { ReadOut s work.now out.old result out.new }
{
    let at = s.at;
    if at.phase != 1 {
        return None;
    }
    let length = at.far.checked_sub(1)? as usize;
    if out.len() < length {
        return Some(length);
    }
    readout::chain_out(work, s.plan, at.found as usize, at.far as usize, out);
    Some(length)
}

// The rest is taken up, and the chain read out.
fn finish_taken(work: &mut [u32], s: SearchState, pattern: &[u8], out: &mut [u16]) -> Option<usize>
    requires { Sound work.old pattern.now s }
    ensures { FinishedIn s pattern.now work.old out.old result out.new }
{
    let moved = turned(work, s, pattern, all_turns(s.plan.size));
    read_out(work, moved.state, out)
}

// Takes up what remains of the search that the area holds, and replies as the finder does for the record at the beginning; the area is all zeros then.
// Where the area holds none, or its words were altered so that they are no search, the reply is 26 and nothing changes.
pub fn finish_search(work: &mut [u32], out: &mut [u16]) -> Result<Option<usize>, OutputError>
    ensures { Finishing work.old out.old (find_reply result) work.new out.new }
{
    if work.len() < TABLES {
        return Err(OutputError::Refused(Refusal::NoSearch));
    }
    let mut bytes: [u8; 192] = [0; 192];
    let long = holding::pattern_bytes(work, &mut bytes);
    let pattern = &bytes[..long];
    let s = holding::taken_out(work, pattern).ok_or(Refusal::NoSearch)?;
    let length = finish_taken(work, s, pattern, out);
    request::clear(work);
    finder::answered(length, out.len())
}
