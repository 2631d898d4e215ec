// The finder: the first shortest chain that a pattern accepts between two places, or that there is none.
// Phase one gives states their distances to the end until a first state is met; phase two takes, line by line, the least line that
// leads one nearer.
#![tactic(auto)]

ghost use Rattle.std.specs.Prelude.{◌≡◌, ◌<◌, length};
ghost use Rattle.meaning.specs.Windows.{plain};
ghost use Rattle.meaning.specs.Request.{ask_request, work_after};
ghost use Rattle.windows.specs.Promise.{options_shown};
ghost use Rattle.search.specs.Loaded.{setting_at};
ghost use Rattle.forward.specs.Firsts.{first_states};
ghost use Rattle.states.specs.Spots.{Fit};
ghost use Rattle.forward.specs.Posed.{SomePosed};
ghost use Rattle.finder.specs.Promise.{find_reply, find_of, said, out_after};
ghost use Rattle.finder.specs.Promise.{Demand3};
ghost use Rattle.finder.specs.Searching.{told_by, SearchedIn, RightFor};

use refusals::OutputError;
use request::Plan;
use windows::Options;

// Both phases, in an area into which the record is loaded. Returns the length of the first shortest chain, where there is one; the chain is
// written where the output holds it.
fn both_phases(
    work: &mut [u32],
    plan: Plan,
    program: &[u64; 128],
    begin: u64,
    from: usize,
    to: usize,
    out: &mut [u16],
) -> Option<usize>
    requires fit { Fit plan program.now work.old }
    requires from_lt_places { (from < plan.places) × (to < plan.places) }
    ensures { SearchedIn (setting_at program.now plan work.old) plan (first_states plan begin from) to result out.old out.new }
{
    ways::file_lines(work, plan, program);
    backward::distances(work, plan, program, begin, from, to);
    let nearest = forward::nearest(work, plan, begin, from);
    let length = nearest.checked_sub(1)? as usize;
    if out.len() < length {
        return Some(length);
    }
    walk::chain_into(work, plan, program, begin, from, nearest, out);
    Some(length)
}

// The search of a request whose record is loaded. The pattern's automaton stands in this function's frame.
fn search_loaded(
    pattern: &[u8],
    plan: Plan,
    from: usize,
    to: usize,
    work: &mut [u32],
    out: &mut [u16],
) -> Option<usize>
    requires { SomePosed pattern.now plan from to work.old }
    ensures { RightFor pattern.now plan from to work.old result out.old out.new }
{
    let mut program: [u64; 128] = [0; 128];
    let begin = compiler::compile(pattern, &mut program);
    both_phases(work, plan, &program, begin, from, to, out)
}

// Question 19, the chain's length being known, where there is a chain: is there room for it?
pub fn answered(length: Option<usize>, room: usize) -> Result<Option<usize>, OutputError>
    ensures { find_reply result ≡ told_by length room }
{
    match length {
        Some(enough) if room < enough => Err(OutputError::TooSmall(enough)),
        _ => Ok(length),
    }
}

// All questions, the search, and question 19: the first shortest chain that the pattern accepts from the first place to the second, of lines
// inside the windows. Returns the length of the chain that was written to the output, or nothing where there is none. The area stays untouched
// where a question up to 17 is answered no, and is all zeros after every other reply; the
// output has the chain in front where one is found, and is untouched otherwise.
pub fn find_with(
    day: &[u8],
    pattern: &[u8],
    from: u16,
    to: u16,
    options: Options,
    work: &mut [u32],
    out: &mut [u16],
) -> Result<Option<usize>, OutputError>
    ensures reply { find_reply result ≡ said (find_of day.now pattern.now from to (options_shown options) (length work.old) (length out.old)) }
    ensures workspace { work.new ≡ work_after (ask_request day.now pattern.now from to (options_shown options) (length work.old)) work.old }
    ensures output { out.new ≡ out_after (find_of day.now pattern.now from to (options_shown options) (length work.old) (length out.old)) out.old }
    ensures first_shortest { Demand3 day.now pattern.now from to (options_shown options) (length out.old) (find_reply result) out.new }
{
    let mut numbers: [u16; 4096] = [0; 4096];
    let plan = request::ask_request(day, pattern, from, to, options, work.len(), &mut numbers)?;
    request::load(day, plan, &numbers, options, work);
    let length = search_loaded(pattern, plan, from as usize, to as usize, work, out);
    request::clear(work);
    answered(length, out.len())
}

// The same for the whole day.
pub fn find(
    day: &[u8],
    pattern: &[u8],
    from: u16,
    to: u16,
    work: &mut [u32],
    out: &mut [u16],
) -> Result<Option<usize>, OutputError>
    ensures reply { find_reply result ≡ said (find_of day.now pattern.now from to plain (length work.old) (length out.old)) }
    ensures workspace { work.new ≡ work_after (ask_request day.now pattern.now from to plain (length work.old)) work.old }
    ensures output { out.new ≡ out_after (find_of day.now pattern.now from to plain (length work.old) (length out.old)) out.old }
    ensures first_shortest { Demand3 day.now pattern.now from to plain (length out.old) (find_reply result) out.new }
{
    find_with(day, pattern, from, to, windows::whole_day(), work, out)
}
