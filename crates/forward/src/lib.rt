// Forward by one line from one state: the states to which it leads are visited; and the first states of a search. Marks and frontier are
// phase two's pair of stretches, after the distances. The checker and both phases of the finder go by this.
#![tactic(auto)]

ghost use Rattle.std.specs.Prelude.{◌≡◌, ℕ, ◌+◌, ◌^◌, ◌%◌, ◌≤◌, ◌<◌, length};
ghost use Rattle.positions.specs.Program.{depth_at};
ghost use Rattle.request.specs.Layout.{Laid};
ghost use Rattle.search.specs.Front.{state_in};
ghost use Rattle.graph.specs.Loops.{turns};
ghost use Rattle.graph.specs.PhaseTwo.{lesser_word, nearest_word};
ghost use Rattle.states.specs.Pairs.{distances, ReadyForth, StepForth, seen};
ghost use Rattle.states.specs.Spots.{front, Fit, next_turn};
ghost use Rattle.forward.specs.Leads.{lead_in, SomeLead, Led};
ghost use Rattle.forward.specs.Firsts.{first_states};

use request::Plan;
use states::Positions;

// The state `t` is visited: it comes into the frontier if its distance's word is `want`; 0 wants every state.
pub fn visit_state(work: &mut [u32], plan: Plan, want: u32, t: usize, tail: usize) -> usize
    requires ready_forth { ReadyForth plan tail work.old }
    requires laid { Laid plan (length work.old) × (t < plan.size) }
    ensures { StepForth plan (seen plan work.old want t) tail work.old result work.new }
{
    if want == 0 || area::word(work, plan.base + t) == want {
        return area::push_if_new(work, plan.marks, plan.size, 1, t, tail);
    }
    tail
}

// The position `k`, at the place `to` with the stack `v` cut to its depth.
pub fn one_next(
    work: &mut [u32],
    plan: Plan,
    program: &[u64; 128],
    want: u32,
    to: usize,
    v: usize,
    k: usize,
    tail: usize,
) -> usize
    requires ready_forth { ReadyForth plan tail work.old }
    requires laid { Laid plan (length work.old) }
    requires to_lt_places { (to < plan.places) × (k ≤ plan.done) × (depth_at program.now k ≤ plan.keeps) }
    ensures { StepForth plan (seen plan work.old want (state_in plan to k (v % plan.radix ^ depth_at program.now k))) tail work.old result work.new }
{
    let weight = states::power(plan.radix, positions::depth_at(program, k));
    let t = states::state_at(plan, to, k, states::cut(v, weight));
    visit_state(work, plan, want, t, tail)
}

// Each position that may come after, from the mask's lowest to its last.
pub fn over_next(
    work: &mut [u32],
    plan: Plan,
    program: &[u64; 128],
    mask: u64,
    want: u32,
    to: usize,
    v: usize,
    tail: usize,
) -> usize
    requires ready_forth { ReadyForth plan tail work.old }
    requires laid { Laid plan (length work.old) }
    requires to_lt_places { (to < plan.places) × ((k : ℕ) → k ≤ plan.done → depth_at program.now k ≤ plan.keeps) }
    ensures { StepForth plan (turns (next_turn plan program.now mask (seen plan work.old want) to v) 0 (plan.done + 1)) tail work.old result work.new }
{
    let mut t = tail;
    for k in Positions(mask) {
        if plan.done < k {
            return t;
        }
        t = one_next(work, plan, program, want, to, v, k, t);
    }
    t
}

// A line as it is loaded: the places that it comes from and leads to, its kind, and its boat's number.
#[derive(Clone, Copy)]
pub struct Lead {
    pub from: usize,
    pub to: usize,
    pub kind: usize,
    pub code: u32,
}

// Line `i`. It is read once for all states that it leads from.
pub fn lead_of(work: &[u32], plan: Plan, i: usize) -> Lead
    requires { Laid plan (length work.now) × (i < plan.lines) }
    ensures { result ≡ lead_in plan (front plan work.now) i }
{
    let line = area::word(work, plan.words + i);
    let code = area::word(work, plan.codes + i);
    Lead {
        from: request::from_of(line),
        to: request::to_of(line),
        kind: request::kind_of(line),
        code,
    }
}

// The line `lead` from the state `s`: each state to which it leads is visited.
pub fn from_state(
    work: &mut [u32],
    plan: Plan,
    program: &[u64; 128],
    want: u32,
    lead: Lead,
    s: usize,
    tail: usize,
) -> usize
    requires ready_forth { ReadyForth plan tail work.old }
    requires fit { Fit plan program.now work.old }
    requires some_lead { SomeLead plan (front plan work.old) lead × (s < plan.size) }
    ensures { Led program.now plan work.old want lead s tail result work.new }
{
    if states::stands_at(plan, s, lead.from) {
        let here = states::standing_at(plan, s, lead.from);
        let at = here.position;
        if lead.kind == positions::kind_at(program, at) {
            if states::passes_at(work, plan, program, at, lead.code, here.stack) {
                let u = states::put_on_at(program, plan.radix, at, here.stack, lead.code);
                let follow = positions::follow_at(program, at);
                return over_next(work, plan, program, follow, want, lead.to, u, tail);
            }
        }
    }
    tail
}

// ---- the first states: those at the place `from`, at the positions of the mask `begin`

// The lesser of two words, where 0 stands for no distance.
#[tactic(auto, unfolding(graph::specs::PhaseTwo::lesser_word))]
fn lesser(v: u32, w: u32) -> u32
    ensures { result ≡ lesser_word v w }
{
    match (v, w) {
        (0, _) => w,
        (_, 0) => v,
        _ => v.min(w),
    }
}

// The word of the nearest first state: those at the place `from`, at the positions of the mask `begin`. 0 where none has a distance. By a
// `for`: in a chain of `filter`, `map` and `fold` it stays open that each position is in range.
pub fn nearest(work: &[u32], plan: Plan, begin: u64, from: usize) -> u32
    requires laid { Laid plan (length work.now) }
    requires from_lt_places { from < plan.places }
    ensures { result ≡ nearest_word (distances plan work.now) (first_states plan begin from) }
{
    let mut v = 0;
    for k in 0..plan.done + 1 {
        if (begin >> k) % 2 == 1 {
            let s = states::state_at(plan, from, k, 0);
            v = lesser(v, area::word(work, plan.base + s));
        }
    }
    v
}
