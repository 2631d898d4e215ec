// A search under way moved on: `Going` has the search state by value, and its methods take it and return it moved on. Phase one expands the states found until
// nothing waits or a first state is met; then phase two sweeps over them, the last found first. Each turn takes up one state. Whatever words the four
// stretches have, no other word changes; where a search stands in them, it is moved on as it should be.
#![tactic(auto)]

ghost use Rattle.std.specs.Prelude.{◌≡◌, suc, ◌+◌, ◌≤◌, ◌<◌};
ghost use Rattle.graph.specs.Underway.{settled, goes_on, last_word};
ghost use Rattle.stepping.specs.Stepping.{underway_in, queued_word, firsts, expanded_by, taken_in, Standing, Searched, Fitting, Indexing, Ordering, StepHeld, BackBy, ForthBy, BackMoved, ForthMoved, MovedOn};

use holding::{Counters, Phase, SearchState};
use sorted::Order;
use sweeping::Sweeping;

// A search under way, and how much is left of an amount that it is to be moved on by.
#[derive(Clone, Copy)]
pub struct Going {
    pub state: SearchState,
    pub left: usize,
}

// The word of the state at place `i` of the queue.
fn queued_word(work: &[u32], s: SearchState, i: usize) -> u32
    requires { Standing s work.now × (i < s.at.found) }
    ensures { Searched s work.now → result ≡ queued_word s work.now i }
{
    let plan = s.plan;
    let found = s.at.found as usize;
    let t = area::waiting_checked(work, plan.base, plan.size, found, i);
    area::dist_at(work, plan.base, plan.size, found, t)
}

// The word of the state expanded last, 0 where none is.
fn last_word(work: &[u32], s: SearchState) -> u32
    requires { Standing s work.now }
    ensures { Searched s work.now → result ≡ last_word (underway_in s work.now) }
{
    let Some(last) = (s.at.expanded as usize).checked_sub(1) else {
        return 0;
    };
    queued_word(work, s, last)
}

// Does a state wait, and is no first state as near as it?
fn goes_on(work: &[u32], s: SearchState, begin: u64) -> bool
    requires { Standing s work.now }
    ensures { Searched s work.now → result ≡ goes_on (firsts s begin) s.plan.lines (underway_in s work.now) }
{
    if s.at.found <= s.at.expanded {
        return false;
    }
    let d = queued_word(work, s, s.at.expanded as usize);
    let last = last_word(work, s);
    !backward::first_met(work, s.plan, begin, s.from, d, last)
}

// Phase one goes on; or the first states that are nearest are marked and the sweep is to begin; or there is no chain.
pub fn settle(work: &mut [u32], s: SearchState, begin: u64) -> SearchState
    requires { Standing s work.old }
    ensures { StepHeld (settled (firsts s begin) s.plan.lines) s work.old result work.new }
{
    let plan = s.plan;
    let from = s.from;
    let mut at = s.at;
    if goes_on(work, s, begin) {
        return s;
    }
    let near = forward::nearest(work, plan, begin, from);
    if near == 0 {
        at.phase = Phase::NoChain as u32;
        return SearchState { plan, from, at };
    }
    sweeping::mark_firsts(work, plan, begin, from, near);
    at.phase = Phase::Forth as u32;
    at.far = near;
    at.rest = at.found;
    at.chosen = plan.lines as u32;
    at.noted = plan.lines as u32;
    SearchState { plan, from, at }
}

// The word of states one farther than those with the word `d`, where `found` states are found. In a search no word is above that count; in an area
// that was altered it can be any number.
fn farther(d: u32, found: usize) -> u32
    requires { found < 4294967295 }
    ensures { (0 < result) × (result ≤ suc found) × (d ≤ found → result ≡ d + 1) }
{
    if found < d as usize {
        return 1;
    }
    d + 1
}

// The next state that waits, if any, is expanded.
fn expand_next(work: &mut [u32], s: SearchState, program: &[u64; 128]) -> SearchState
    requires { Standing s work.old × Indexing s program.now work.old }
    ensures { StepHeld (expanded_by s program.now work.old) s work.old result work.new }
{
    let plan = s.plan;
    let from = s.from;
    let mut at = s.at;
    if at.found <= at.expanded {
        return s;
    }
    let found = at.found as usize;
    let t = area::waiting_checked(work, plan.base, plan.size, found, at.expanded as usize);
    let d = area::dist_at(work, plan.base, plan.size, found, t);
    let more = tracing::expand_traced(work, plan, program, farther(d, found), t, found);
    at.expanded = at.expanded + 1;
    at.found = more as u32;
    SearchState { plan, from, at }
}

// One turn of phase one.
fn back_one(work: &mut [u32], s: SearchState, program: &[u64; 128], begin: u64) -> SearchState
    requires standing { Standing s work.old × Indexing s program.now work.old }
    requires phase_value { s.at.phase ≡ 0 }
    ensures { StepHeld (taken_in s program.now begin work.old) s work.old result work.new }
{
    let next = expand_next(work, s, program);
    settle(work, next, begin)
}

// One turn of phase two, more than the goal being left.
fn forth_one(work: &mut [u32], s: SearchState, program: &[u64; 128], begin: u64) -> SearchState
    requires standing { Standing s work.old × Ordering s program.now work.old }
    requires phase_value { (s.at.phase ≡ 1) × (1 < s.at.rest) }
    ensures { StepHeld (taken_in s program.now begin work.old) s work.old result work.new × (result.at.phase ≡ 1) }
{
    let plan = s.plan;
    let from = s.from;
    let mut at = s.at;
    let sweep = Sweeping {
        rest: at.rest as usize,
        chosen: at.chosen as usize,
        noted: at.noted as usize,
    };
    let next = sweeping::sweep_state(work, plan, program, at.found as usize, sweep);
    at.rest = next.rest as u32;
    at.chosen = next.chosen as u32;
    at.noted = next.noted as u32;
    SearchState { plan, from, at }
}

// Turns of phase one, while it goes on.
fn back_by(
    work: &mut [u32],
    s: SearchState,
    program: &[u64; 128],
    begin: u64,
    amount: usize,
) -> Going
    requires { Standing s work.old × Indexing s program.now work.old }
    ensures { BackBy s program.now begin amount work.old result work.new }
{
    let mut state = s;
    for done in 0..amount {
        if state.at.phase != Phase::Back as u32 {
            let left = amount - done;
            return Going { state, left };
        }
        state = back_one(work, state, program, begin);
    }
    Going { state, left: 0 }
}

// Turns of phase two, while more than the goal is left.
fn forth_by(
    work: &mut [u32],
    s: SearchState,
    program: &[u64; 128],
    begin: u64,
    amount: usize,
) -> Going
    requires standing { Standing s work.old × Ordering s program.now work.old }
    requires phase_value { s.at.phase ≡ 1 }
    ensures { ForthBy s program.now begin amount work.old result work.new }
{
    let mut state = s;
    for done in 0..amount {
        if state.at.rest <= 1 {
            let left = amount - done;
            return Going { state, left };
        }
        state = forth_one(work, state, program, begin);
    }
    Going { state, left: 0 }
}

impl Going {
    // Phase one, with the lines in order of the place that they lead to.
    fn back(self, work: &mut [u32], program: &[u64; 128], begin: u64) -> Going
        requires { Standing self.state work.old × Fitting self.state program.now work.old }
        ensures { BackMoved self.state program.now begin self.left work.old result work.new }
    {
        let s = self.state;
        if s.at.phase != Phase::Back as u32 {
            return self;
        }
        if self.left == 0 {
            return self;
        }
        let plan = s.plan;
        sorted::sort_at(work, plan, Order::End, plan.base + 4 * plan.size);
        back_by(work, s, program, begin, self.left)
    }

    // Phase two, with the lines in order of the place that they come from.
    fn forth(self, work: &mut [u32], program: &[u64; 128], begin: u64) -> Going
        requires { Standing self.state work.old × Fitting self.state program.now work.old }
        ensures { ForthMoved self.state program.now begin self.left work.old result work.new }
    {
        let s = self.state;
        if s.at.phase != Phase::Forth as u32 {
            return self;
        }
        if self.left == 0 {
            return self;
        }
        let plan = s.plan;
        sorted::sort_at(work, plan, Order::Start, plan.base + 4 * plan.size);
        forth_by(work, s, program, begin, self.left)
    }

    // The search moved on by what is left of the amount, or by all that remains of it.
    pub fn moved(self, work: &mut [u32], program: &[u64; 128], begin: u64) -> Going
        requires { Standing self.state work.old × Fitting self.state program.now work.old }
        ensures { MovedOn self.state program.now begin self.left work.old result work.new }
    {
        let met = self.back(work, program, begin);
        met.forth(work, program, begin)
    }
}
