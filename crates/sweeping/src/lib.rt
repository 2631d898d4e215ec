// Phase two state by state, for a search that can stop at every count: the states found are taken up once more, the last found first. A state that
// is marked with the line chosen into its level looks for its least line to a state one nearer, and the states to which that line leads are marked
// with it. The marks stand after the tags; after the marks stand the lines in order of the place that they come from.
#![tactic(auto)]

ghost use Rattle.std.specs.Prelude.{◌≡◌, false, ℕ, ◌+◌, ◌-◌, ◌^◌, ◌%◌, ◌≤◌, ◌<◌, length};
ghost use Rattle.positions.specs.Program.{depth_at};
ghost use Rattle.graph.specs.Loops.{turns};
ghost use Rattle.request.specs.Layout.{Laid};
ghost use Rattle.search.specs.Front.{state_in};
ghost use Rattle.search.specs.Loaded.{setting_at};
ghost use Rattle.states.specs.Pairs.{distances, RoomBack};
ghost use Rattle.states.specs.Spots.{front, Fit, next_turn};
ghost use Rattle.forward.specs.Leads.{SomeLead};
ghost use Rattle.sweeping.specs.Sweeping.{index_at, Ordered, mark_turn, first_turn, Marked, LineMarked, LedOn, TakenUp, SweptTo, FirstsMarked};

use forward::Lead;
use request::Plan;
use sorted::Order;
use states::Positions;

// Which states are marked, by their word, and with what.
#[derive(Clone, Copy)]
pub struct Marking {
    pub want: u32,
    pub with: u32,
}

// The state `t` is marked, if its word is the one that is wanted. Returns whether any is marked.
fn mark_state(work: &mut [u32], plan: Plan, marking: Marking, t: usize, led: bool) -> bool
    requires { Laid plan (length work.old) × (index_at plan ≤ length work.old) × (t < plan.size) }
    ensures { Marked plan (mark_turn (distances plan work.old) marking.want marking.with t) led work.old result work.new }
{
    if area::word(work, plan.base + t) == marking.want {
        area::write(work, plan.base + 3 * plan.size, plan.size, t, marking.with);
        return true;
    }
    led
}

// ---- the states to which a line leads

// The position `k`, at the place `to` with the stack `v` cut to its depth.
fn mark_one(
    work: &mut [u32],
    plan: Plan,
    program: &[u64; 128],
    marking: Marking,
    to: usize,
    v: usize,
    k: usize,
    led: bool,
) -> bool
    requires laid { Laid plan (length work.old) × (index_at plan ≤ length work.old) }
    requires to_lt_places { (to < plan.places) × (k ≤ plan.done) × (depth_at program.now k ≤ plan.keeps) }
    ensures { Marked plan (mark_turn (distances plan work.old) marking.want marking.with (state_in plan to k (v % plan.radix ^ depth_at program.now k))) led work.old result work.new }
{
    let weight = states::power(plan.radix, positions::depth_at(program, k));
    let t = states::state_at(plan, to, k, states::cut(v, weight));
    mark_state(work, plan, marking, t, led)
}

// Each position that may come after, from the mask's lowest to its last.
fn mark_next(
    work: &mut [u32],
    plan: Plan,
    program: &[u64; 128],
    mask: u64,
    marking: Marking,
    to: usize,
    v: usize,
) -> bool
    requires laid { Laid plan (length work.old) × (index_at plan ≤ length work.old) }
    requires to_lt_places { (to < plan.places) × ((k : ℕ) → k ≤ plan.done → depth_at program.now k ≤ plan.keeps) }
    ensures { Marked plan (turns (next_turn plan program.now mask (mark_turn (distances plan work.old) marking.want marking.with) to v) 0 (plan.done + 1)) false work.old result work.new }
{
    let mut led = false;
    for k in Positions(mask) {
        if plan.done < k {
            return led;
        }
        led = mark_one(work, plan, program, marking, to, v, k, led);
    }
    led
}

// The line `lead` from the state `s`: each state to which it leads is marked, if its word is the one that is wanted. Says whether there is one.
fn mark_line(
    work: &mut [u32],
    plan: Plan,
    program: &[u64; 128],
    marking: Marking,
    lead: Lead,
    s: usize,
) -> bool
    requires fit { Fit plan program.now work.old × (index_at plan ≤ length work.old) }
    requires some_lead { SomeLead plan (front plan work.old) lead × (s < plan.size) }
    ensures { LineMarked program.now plan marking.want marking.with lead s work.old result work.new }
{
    if states::stands_at(plan, s, lead.from) {
        let here = states::standing_at(plan, s, lead.from);
        let at = here.position;
        if lead.kind == positions::kind_at(program, at) {
            if states::passes_at(work, plan, program, at, lead.code, here.stack) {
                let u = states::put_on_at(program, plan.radix, at, here.stack, lead.code);
                let follow = positions::follow_at(program, at);
                return mark_next(work, plan, program, follow, marking, lead.to, u);
            }
        }
    }
    false
}

// ---- a state is taken up

// The least line that leads from the state `s` to a state with the word `want`, if it is no higher than `noted`: the states to which it leads are
// marked with it. Returns that line, and `noted` where there is none.
fn lead_on(
    work: &mut [u32],
    plan: Plan,
    program: &[u64; 128],
    s: usize,
    want: u32,
    noted: usize,
) -> usize
    requires fit { Fit plan program.now work.old × Ordered plan work.old }
    requires s_lt_size { (s < plan.size) × (noted ≤ plan.lines) }
    ensures { LedOn plan (setting_at program.now plan work.old) s want noted work.old result work.new }
{
    let at = plan.base + 4 * plan.size;
    let run = sorted::run_at(work, plan, Order::Start, at, states::place_of(plan, s));
    for k in run.lo..run.hi {
        let i = area::word(work, k) as usize;
        if noted < i {
            return noted;
        }
        let lead = forward::lead_of(work, plan, i);
        let marking = Marking {
            want,
            with: i as u32 + 1,
        };
        if mark_line(work, plan, program, marking, lead, s) {
            return i;
        }
    }
    noted
}

// How far the sweep is: how many of the states found are left, the line chosen into the level of the last of them, and the least line found there.
#[derive(Clone, Copy)]
pub struct Sweeping {
    pub rest: usize,
    pub chosen: usize,
    pub noted: usize,
}

// The state `s` with the word `w`: where it is marked with the line chosen into its level, it looks for its least line to a state one nearer. Returns
// the least line so far.
fn take_up(
    work: &mut [u32],
    plan: Plan,
    program: &[u64; 128],
    s: usize,
    w: u32,
    at: Sweeping,
) -> usize
    requires fit { Fit plan program.now work.old × Ordered plan work.old }
    requires s_lt_size { (s < plan.size) × (at.chosen ≤ plan.lines) × (at.noted ≤ plan.lines) }
    ensures { TakenUp plan (setting_at program.now plan work.old) s w at work.old result work.new }
{
    if area::word(work, plan.base + 3 * plan.size + s) as usize == at.chosen + 1 {
        return lead_on(work, plan, program, s, w.saturating_sub(1), at.noted);
    }
    at.noted
}

// The last state that is left is taken up. Where the state before it has another word the level ends, and its least line is chosen.
pub fn sweep_state(
    work: &mut [u32],
    plan: Plan,
    program: &[u64; 128],
    tail: usize,
    at: Sweeping,
) -> Sweeping
    requires room_back { RoomBack plan tail work.old }
    requires fit { Fit plan program.now work.old × Ordered plan work.old }
    requires lt_rest { (1 < at.rest) × (at.rest ≤ tail) × (at.chosen ≤ plan.lines) × (at.noted ≤ plan.lines) }
    ensures { SweptTo plan (setting_at program.now plan work.old) tail at work.old result work.new }
{
    let rest = at.rest - 1;
    let s = area::waiting_checked(work, plan.base, plan.size, tail, rest);
    let w = area::dist_at(work, plan.base, plan.size, tail, s);
    let before = area::waiting_checked(work, plan.base, plan.size, tail, rest - 1);
    let level = area::dist_at(work, plan.base, plan.size, tail, before);
    let noted = take_up(work, plan, program, s, w, at);
    if level == w {
        return Sweeping {
            rest,
            chosen: at.chosen,
            noted,
        };
    }
    Sweeping {
        rest,
        chosen: noted,
        noted: plan.lines,
    }
}

// ---- where it begins

// The first state at position `k`, if it is one.
fn mark_first(
    work: &mut [u32],
    plan: Plan,
    begin: u64,
    from: usize,
    marking: Marking,
    k: usize,
    led: bool,
) -> bool
    requires laid { Laid plan (length work.old) × (index_at plan ≤ length work.old) }
    requires from_lt_places { (from < plan.places) × (k ≤ plan.done) }
    ensures { Marked plan (first_turn plan (distances plan work.old) begin from marking.want marking.with k) led work.old result work.new }
{
    if (begin >> k) % 2 == 1 {
        let s = states::state_at(plan, from, k, 0);
        return mark_state(work, plan, marking, s, led);
    }
    led
}

// The first states with the word `near` are marked with one more than the count of lines.
pub fn mark_firsts(work: &mut [u32], plan: Plan, begin: u64, from: usize, near: u32)
    requires laid { Laid plan (length work.old) × (index_at plan ≤ length work.old) }
    requires from_lt_places { from < plan.places }
    ensures { FirstsMarked plan begin from near work.old work.new }
{
    let marking = Marking {
        want: near,
        with: plan.lines as u32 + 1,
    };
    let positions = plan.done + 1;
    let mut led = false;
    for k in 0..positions {
        led = mark_first(work, plan, begin, from, marking, k, led);
    }
}
