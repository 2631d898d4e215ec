// Is a chain accepted? The set of states that the chain can be in is moved along it, line by line, inside one lent work area.
// Marks and frontier hold the set; the list before them holds the states of the line before, so that a line's work goes by the states alive.
#![tactic(auto)]

ghost use Rattle.std.specs.Prelude.{◌≡◌, true, ◌+◌, ◌≤◌, ◌<◌, length};
ghost use Rattle.meaning.specs.Outcome.{told};
ghost use Rattle.meaning.specs.Windows.{plain};
ghost use Rattle.meaning.specs.Request.{ask_request, work_after};
ghost use Rattle.windows.specs.Promise.{options_shown};
ghost use Rattle.meaning.specs.Chain.{exist};
ghost use Rattle.request.specs.Layout.{Laid};
ghost use Rattle.graph.specs.Loops.{turns};
ghost use Rattle.states.specs.Pairs.{ReadyForth, StepForth};
ghost use Rattle.search.specs.Product.{succs};
ghost use Rattle.search.specs.Loaded.{setting_at};
ghost use Rattle.states.specs.Spots.{Fit};
ghost use Rattle.forward.specs.Posed.{SomePosed};
ghost use Rattle.checker.specs.Walk.{stepped, walked, Alive, Advanced, frontier_at, aside_of, Aside, Listed, list_turn, Within, ends, RightFor};
ghost use Rattle.checker.specs.Promise.{check_reply, check_of, Demand2};

use refusals::Refusal;
use request::Plan;
use windows::Options;

// Question 18: is each number of the chain that of a line?
fn lines_exist(chain: &[u16], lines: usize) -> bool
    ensures { result ≡ exist lines chain.now }
{
    chain.iter().all(|&line| usize::from(line) < lines)
}

// ---- one line of the chain

// State i of the frontier comes into the list and loses its mark.
fn set_aside(work: &mut [u32], plan: Plan, i: usize)
    requires laid { Laid plan (length work.old) }
    requires i_lt_size { (i < plan.size) × (frontier_at plan work.old i < plan.size) }
    ensures { work.new ≡ aside_of plan i work.old }
{
    let s = area::word(work, plan.marks + plan.size + i);
    area::write(work, plan.base, plan.size, i, s);
    area::write(work, plan.marks, plan.size, s as usize, 0);
}

// All states of the frontier come into the list, and nothing is marked.
fn settle(work: &mut [u32], plan: Plan, tail: usize)
    requires laid { Laid plan (length work.old) }
    requires ready_forth { ReadyForth plan tail work.old }
    ensures { Aside plan tail work.old work.new }
{
    for i in 0..tail {
        set_aside(work, plan, i);
    }
}

// The states to which the line leads from those of the list become the frontier. Returns how many they are.
fn gather(work: &mut [u32], plan: Plan, program: &[u64; 128], line: usize, count: usize) -> usize
    requires ready_forth { ReadyForth plan 0 work.old }
    requires fit { Fit plan program.now work.old }
    requires line_lt_lines { (line < plan.lines) × (count ≤ plan.size) × Listed plan count work.old }
    ensures { StepForth plan (turns (list_turn (setting_at program.now plan work.old) plan work.old line) 0 count) 0 work.old result work.new }
{
    let lead = forward::lead_of(work, plan, line);
    let mut t = 0;
    for j in 0..count {
        let s = area::word(work, plan.base + j) as usize;
        t = forward::from_state(work, plan, program, 0, lead, s, t);
    }
    t
}

// One more line of the chain: the set becomes that of the states to which the line leads.
fn next_line(work: &mut [u32], plan: Plan, program: &[u64; 128], line: usize, tail: usize) -> usize
    requires fit { Fit plan program.now work.old }
    requires alive { Alive plan tail work.old }
    requires line_lt_lines { line < plan.lines }
    ensures { Advanced plan (stepped (succs (setting_at program.now plan work.old)) plan.size line) tail work.old result work.new }
{
    settle(work, plan, tail);
    gather(work, plan, program, line, tail)
}

// ---- the chain

// The set moved along the whole chain. Returns how many states are in it then.
fn run_chain(
    work: &mut [u32],
    plan: Plan,
    program: &[u64; 128],
    chain: &[u16],
    tail: usize,
) -> usize
    requires fit { Fit plan program.now work.old }
    requires alive { Alive plan tail work.old }
    requires chain_value { exist plan.lines chain.now ≡ true }
    ensures { Advanced plan (walked (succs (setting_at program.now plan work.old)) plan.size chain.now) tail work.old result work.new }
{
    let mut t = tail;
    for &line in chain {
        t = next_line(work, plan, program, usize::from(line), t);
    }
    t
}

// Does the chain lead from the positions of the mask at the place `from` to the end at the place `to`?
fn leads(
    work: &mut [u32],
    plan: Plan,
    program: &[u64; 128],
    begin: u64,
    from: usize,
    to: usize,
    chain: &[u16],
) -> bool
    requires fit { Fit plan program.now work.old }
    requires within { Within plan begin }
    requires from_lt_places { (from < plan.places) × (to < plan.places) × (exist plan.lines chain.now ≡ true) }
    ensures { result ≡ ends (setting_at program.now plan work.old) begin from to chain.now }
{
    area::clear_stretch(work, plan.marks, plan.size);
    let starts = forward::over_next(work, plan, program, begin, 0, from, 0, 0);
    let tail = run_chain(work, plan, program, chain, starts);
    let end = states::state_at(plan, to, plan.done, 0);
    area::dist_at(work, plan.marks, plan.size, tail, end) != 0
}

// ---- a request

// Is the chain accepted, in an area into which the record is loaded? The pattern's automaton stands in this function's frame.
fn accepted(
    pattern: &[u8],
    plan: Plan,
    from: usize,
    to: usize,
    chain: &[u16],
    work: &mut [u32],
) -> bool
    requires some_posed { SomePosed pattern.now plan from to work.old }
    requires chain_value { exist plan.lines chain.now ≡ true }
    ensures { RightFor pattern.now plan from to chain.now work.old result }
{
    let mut program: [u64; 128] = [0; 128];
    let begin = compiler::compile(pattern, &mut program);
    leads(work, plan, &program, begin, from, to, chain)
}

// All questions, then yes or no, true or false: does the chain lead from the first place to the second, is its word in the pattern's language, and are its
// lines inside the windows? The area stays untouched where a question up to 17 is answered no, and is all zeros after every other reply.
pub fn check_chain_with(
    day: &[u8],
    pattern: &[u8],
    from: u16,
    to: u16,
    chain: &[u16],
    options: Options,
    work: &mut [u32],
) -> Result<bool, Refusal>
    ensures reply { check_reply result ≡ told (check_of day.now pattern.now from to chain.now (options_shown options) (length work.old)) }
    ensures workspace { work.new ≡ work_after (ask_request day.now pattern.now from to (options_shown options) (length work.old)) work.old }
    ensures membership { Demand2 day.now pattern.now from to chain.now (options_shown options) (check_reply result) }
{
    let mut numbers: [u16; 4096] = [0; 4096];
    let plan = request::ask_request(day, pattern, from, to, options, work.len(), &mut numbers)?;
    if !lines_exist(chain, plan.lines) {
        request::clear(work);
        return Err(Refusal::LineNotThere);
    }
    request::load(day, plan, &numbers, options, work);
    let yes = accepted(
        pattern,
        plan,
        usize::from(from),
        usize::from(to),
        chain,
        work,
    );
    request::clear(work);
    Ok(yes)
}

// The same for the whole day.
pub fn check_chain(
    day: &[u8],
    pattern: &[u8],
    from: u16,
    to: u16,
    chain: &[u16],
    work: &mut [u32],
) -> Result<bool, Refusal>
    ensures reply { check_reply result ≡ told (check_of day.now pattern.now from to chain.now plain (length work.old)) }
    ensures workspace { work.new ≡ work_after (ask_request day.now pattern.now from to plain (length work.old)) work.old }
    ensures membership { Demand2 day.now pattern.now from to chain.now plain (check_reply result) }
{
    check_chain_with(day, pattern, from, to, chain, windows::whole_day(), work)
}
