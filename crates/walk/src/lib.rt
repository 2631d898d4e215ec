// Phase two: from the distances that phase one left, the first shortest chain, line by line. Marks and frontiers are the pair of stretches
// after the distances.
#![tactic(auto)]

ghost use Rattle.std.specs.Prelude.{◌≡◌, true, ◌++◌, suc, ◌+◌, ◌-◌, ◌≤◌, ◌<◌, length, take, drop};
ghost use Rattle.request.specs.Layout.{Laid};
ghost use Rattle.graph.specs.PhaseTwo.{gather};
ghost use Rattle.states.specs.Pairs.{ReadyForth, StepForth, found_forth};
ghost use Rattle.states.specs.Spots.{front, Fit, Starts};
ghost use Rattle.walk.specs.Leading.{Ordered, Leading, Standing, Together, leads, Chose, chain_from, chain_by};

use request::Plan;
use sorted::Order;

// ---- the lines in order of the place that they come from, after the frontiers

// They are put there, where there is room. No word before them changes.
fn order_lines(work: &mut [u32], plan: Plan)
    requires laid { Laid plan (length work.old) }
    requires starts { Starts plan (front plan work.old) }
    ensures ordered { Ordered plan work.new }
    ensures work_unchanged { (take plan.bystart work.new ≡ take plan.bystart work.old) × (length work.new ≡ length work.old) }
{
    if plan.ordered {
        sorted::sort_lines(work, plan, Order::Start);
    }
}

// Line `i` from each state of the frontier, which stands in the queue from index `lo` on.
pub fn gather_line(
    work: &mut [u32],
    plan: Plan,
    program: &[u64; 128],
    want: u32,
    i: usize,
    lo: usize,
    tail: usize,
) -> usize
    requires ready_forth { ReadyForth plan tail work.old }
    requires fit { Fit plan program.now work.old }
    requires want_nonzero { (0 < want) × (i < plan.lines) × (lo ≤ tail) }
    ensures { StepForth plan (gather (leads program.now plan work.old) want i lo) tail work.old result work.new }
{
    let lead = forward::lead_of(work, plan, i);
    let mut t = tail;
    for j in lo..tail {
        let s = area::waiting(work, plan.marks, plan.size, t, j);
        t = forward::from_state(work, plan, program, want, lead, s, t);
    }
    t
}

// The line that is chosen, and the count of the queue then. Where no line leads on it is the count of lines, and no `None`: what is chosen is
// written out either way, as the specification's walk does.
#[derive(Clone, Copy)]
pub struct Choice {
    pub line: usize,
    pub tail: usize,
}

// The least line that leads from the frontier to states with the word `want`, of all lines; the count of lines where none does.
fn choose_all(
    work: &mut [u32],
    plan: Plan,
    program: &[u64; 128],
    want: u32,
    lo: usize,
    tail: usize,
) -> Choice
    requires ready_forth { ReadyForth plan tail work.old }
    requires fit { Fit plan program.now work.old }
    requires want_nonzero { (0 < want) × (lo ≤ tail) }
    ensures { Chose plan program.now want lo tail work.old result.line result.tail work.new }
{
    for line in 0..plan.lines {
        let t = gather_line(work, plan, program, want, line, lo, tail);
        if t != tail {
            return Choice { line, tail: t };
        }
    }
    Choice {
        line: plan.lines,
        tail,
    }
}

// The place of the frontier, which stands in the queue from index `lo` on; any place where it is empty.
fn place_of(work: &[u32], plan: Plan, lo: usize, tail: usize) -> usize
    requires ready_forth { ReadyForth plan tail work.now }
    requires laid { Laid plan (length work.now) }
    requires together { Together plan lo tail work.now }
    ensures { (result < plan.places) × Standing plan result lo tail work.now }
{
    if lo < tail {
        let s = area::waiting(work, plan.marks, plan.size, tail, lo);
        return states::place_of(plan, s);
    }
    0
}

// The same, of the lines that come from the frontier's place: lines from elsewhere lead nowhere.
fn choose_here(
    work: &mut [u32],
    plan: Plan,
    program: &[u64; 128],
    want: u32,
    lo: usize,
    tail: usize,
) -> Choice
    requires ready_forth { ReadyForth plan tail work.old }
    requires leading { Leading plan program.now work.old }
    requires ordered_value { plan.ordered ≡ true }
    requires want_nonzero { (0 < want) × (lo ≤ tail) × Together plan lo tail work.old }
    ensures { Chose plan program.now want lo tail work.old result.line result.tail work.new }
{
    let q = place_of(work, plan, lo, tail);
    let run = sorted::run_of(work, plan, Order::Start, q);
    for k in run.lo..run.hi {
        let line = area::word(work, k) as usize;
        let t = gather_line(work, plan, program, want, line, lo, tail);
        if t != tail {
            return Choice { line, tail: t };
        }
    }
    Choice {
        line: plan.lines,
        tail,
    }
}

// The same, by the lines in order where there is room for them.
pub fn choose_line(
    work: &mut [u32],
    plan: Plan,
    program: &[u64; 128],
    want: u32,
    lo: usize,
    tail: usize,
) -> Choice
    requires ready_forth { ReadyForth plan tail work.old }
    requires leading { Leading plan program.now work.old }
    requires want_nonzero { (0 < want) × (lo ≤ tail) × Together plan lo tail work.old }
    ensures { Chose plan program.now want lo tail work.old result.line result.tail work.new }
{
    if plan.ordered {
        return choose_here(work, plan, program, want, lo, tail);
    }
    choose_all(work, plan, program, want, lo, tail)
}

// The `far` lines chosen one after the other, from a first frontier of `tail` states, written into the front of `out`.
pub fn walk_lines(
    work: &mut [u32],
    plan: Plan,
    program: &[u64; 128],
    far: u32,
    tail: usize,
    out: &mut [u16],
)
    requires ready_forth { ReadyForth plan tail work.old }
    requires leading { Leading plan program.now work.old }
    requires far_in_bounds { (far ≤ length out.old) × Together plan 0 tail work.old }
    ensures { out.new ≡ chain_from program.now plan far (found_forth plan tail work.old) work.old ++ drop far out.old }
{
    let mut lo = 0;
    let mut t = tail;
    for (j, x) in out[..far as usize].iter_mut().enumerate() {
        let chosen = choose_line(work, plan, program, far - j as u32, lo, t);
        *x = chosen.line as u16;
        lo = t;
        t = chosen.tail;
    }
}

// Phase two from the word of the nearest first state, which is one more than the chain's length: the chain, written into the front of `out`.
pub fn chain_into(
    work: &mut [u32],
    plan: Plan,
    program: &[u64; 128],
    begin: u64,
    from: usize,
    nearest: u32,
    out: &mut [u16],
)
    requires fit { Fit plan program.now work.old }
    requires from_lt_places { (from < plan.places) × (0 < nearest) × (nearest ≤ suc (length out.old)) }
    ensures { out.new ≡ chain_by program.now plan begin from nearest work.old ++ drop (nearest - 1) out.old }
{
    order_lines(work, plan);
    area::clear_stretch(work, plan.marks, plan.size);
    let tail = forward::over_next(work, plan, program, begin, nearest, from, 0, 0);
    walk_lines(work, plan, program, nearest - 1, tail, out)
}
