// A state expanded, backward, with how each state before it is reached: the line, and the state that is expanded, as a tag beside the queue.
// The lines stand in order of the place that they lead to, after the four stretches.
#![tactic(auto)]

ghost use Rattle.std.specs.Prelude.{◌≡◌, false, suc, ◌+◌, ◌*◌, ◌-◌, ◌≤◌, ◌<◌, length, replicate};
ghost use Rattle.positions.specs.Program.{bit_of, follow_at};
ghost use Rattle.request.specs.Layout.{Laid};
ghost use Rattle.search.specs.Loaded.{setting_at, code_at, word_at};
ghost use Rattle.search.specs.Traced.{trace};
ghost use Rattle.area.specs.Area.{patch};
ghost use Rattle.states.specs.Pairs.{RoomBack};
ghost use Rattle.states.specs.Spots.{front, Aimed, Starts, Fit, Sane};
ghost use Rattle.expanding.specs.Undoing.{Undoing, LeadsTo};
ghost use Rattle.tracing.specs.Tracing.{StepTraced, Indexed, NothingTraced, line_traced, into_traced, spot_traced};
ghost use Rattle.tracing.specs.Wanting.{can_have, can_lead, WantedBy};

use expanding::Undo;
use request::Plan;
use sorted::Order;
use states::Target;

// A tag is a line times this and a state.
const TAG: usize = 1048576;

// The words from word `lo` up to word `hi` become `v`.
#[tactic(auto, unfolding(area::specs::Area::patch))]
fn write_run(work: &mut [u32], lo: usize, hi: usize, v: u32)
    requires { (lo ≤ hi) × (hi ≤ length work.old) }
    ensures { work.new ≡ patch lo (hi - lo) (replicate (hi - lo) v) work.old }
{
    work[lo..hi].fill(v);
}

// Line `i`, if it leads to the place and is of the position's kind: gone back over to the position `c`. The states that it finds get its tag.
fn one_traced(
    work: &mut [u32],
    plan: Plan,
    undo: Undo,
    place: usize,
    c: usize,
    i: usize,
    parent: usize,
    tail: usize,
) -> usize
    requires undoing { Undoing plan undo tail work.old }
    requires starts { Starts plan (front plan work.old) × (i < plan.lines) × (plan.base + 4 * plan.size ≤ length work.old) × (parent < plan.size) }
    requires leads_to { LeadsTo plan undo c }
    ensures { StepTraced plan (line_traced plan undo (front plan work.old) place c parent i) tail work.old result work.new }
{
    let t = expanding::one_line(work, plan, undo, place, c, i, tail);
    let how = plan.base + 2 * plan.size;
    write_run(work, how + tail, how + t, (i * TAG + parent) as u32);
    t
}

// The one boat that a line can have which leads back; none where it can have any. Where one stack is undone it is the boat that the stack has on top,
// where the position keeps a boat, or the entry that the position compares with, where it takes that alone.
fn wanted_by(plan: Plan, undo: Undo) -> Option<usize>
    requires { Sane undo.spot × (0 < plan.radix) }
    ensures { WantedBy plan undo result }
{
    let spot = undo.spot;
    if undo.count != 1 {
        return None;
    }
    if spot.push {
        return Some(undo.stack / spot.weight);
    }
    if states::wants_kept(spot) {
        return Some(states::entry_at(undo.stack, spot.level, plan.radix));
    }
    None
}

// Can line `i` have it?
fn can_have(work: &[u32], plan: Plan, wanted: Option<usize>, i: usize) -> bool
    requires { Laid plan (length work.now) × (i < plan.lines) }
    ensures { result ≡ can_have wanted (code_at plan (front plan work.now) i) }
{
    match wanted {
        Some(x) => area::word(work, plan.codes + i) as usize == x,
        None => true,
    }
}

// Can line `i` lead back: can it have the wanted boat, and is it of the kind? Both are asked before the line is gone over, since most lines fail one;
// the boat first, which fewer pass.
fn can_lead(work: &[u32], plan: Plan, kind: usize, wanted: Option<usize>, i: usize) -> bool
    requires { Laid plan (length work.now) × (i < plan.lines) }
    ensures { result ≡ can_lead kind wanted (word_at plan (front plan work.now) i) (code_at plan (front plan work.now) i) }
{
    can_have(work, plan, wanted, i) && request::kind_of(area::word(work, plan.words + i)) == kind
}

// Is line `i` to be gone over: can it lead back, and is the state that it would find not one that has been met?
fn worth_going(
    work: &[u32],
    plan: Plan,
    undo: Undo,
    wanted: Option<usize>,
    c: usize,
    i: usize,
    tail: usize,
) -> bool
    requires undoing { Undoing plan undo tail work.now × WantedBy plan undo wanted }
    requires starts { Starts plan (front plan work.now) × (i < plan.lines) }
    requires leads_to { LeadsTo plan undo c }
    ensures { result ≡ false → NothingTraced plan undo c i tail work.now }
{
    can_lead(work, plan, undo.spot.kind, wanted, i)
        && !expanding::line_met(work, plan, undo, c, i, tail)
}

// Each line that leads to the place, one after the other; those that would do nothing are left out.
fn over_into(
    work: &mut [u32],
    plan: Plan,
    undo: Undo,
    place: usize,
    c: usize,
    parent: usize,
    tail: usize,
) -> usize
    requires undoing { Undoing plan undo tail work.old }
    requires starts { Starts plan (front plan work.old) × Indexed plan work.old × (place < plan.places) × (parent < plan.size) }
    requires leads_to { LeadsTo plan undo c }
    ensures { StepTraced plan (into_traced plan undo (front plan work.old) place c parent) tail work.old result work.new }
{
    let at = plan.base + 4 * plan.size;
    let run = sorted::run_at(work, plan, Order::End, at, place);
    let boats = wanted_by(plan, undo);
    let mut t = tail;
    for k in run.lo..run.hi {
        let i = area::word(work, k) as usize;
        if worth_going(work, plan, undo, boats, c, i, t) {
            t = one_traced(work, plan, undo, place, c, i, parent, t);
        }
    }
    t
}

// The position `c`, which the target's may come after: the lines that lead back to it.
fn spot_traced(
    work: &mut [u32],
    plan: Plan,
    program: &[u64; 128],
    target: Target,
    d: u32,
    c: usize,
    parent: usize,
    tail: usize,
) -> usize
    requires room_back { RoomBack plan tail work.old }
    requires fit { Fit plan program.now work.old × Indexed plan work.old }
    requires aimed { Aimed plan target × (parent < plan.size) }
    requires d_nonzero { (0 < d) × (d ≤ suc tail) × (c < plan.done) × (bit_of (follow_at program.now c) target.position ≡ 1) }
    ensures { StepTraced plan (spot_traced program.now plan (front plan work.old) target d parent c) tail work.old result work.new }
{
    let spot = states::spot_at(program, plan.radix, c);
    let leaves = expanding::leaves_of(positions::depth_at(program, c), spot.push);
    let undo = expanding::undo_of(plan, spot, target, d, leaves);
    over_into(work, plan, undo, target.place, c, parent, tail)
}

// The state `t` is expanded: each state before it that has no word gets the word `d`, and the tag of the line by which it is reached.
pub fn expand_traced(
    work: &mut [u32],
    plan: Plan,
    program: &[u64; 128],
    d: u32,
    t: usize,
    tail: usize,
) -> usize
    requires room_back { RoomBack plan tail work.old }
    requires fit { Fit plan program.now work.old × Indexed plan work.old }
    requires d_nonzero { (0 < d) × (d ≤ suc tail) × (t < plan.size) }
    ensures { StepTraced plan (trace (setting_at program.now plan work.old) d t) tail work.old result work.new }
{
    let target = states::target_of(program, plan, t);
    let done = plan.done;
    let mut u = tail;
    for c in 0..done {
        if (positions::follow_at(program, c) >> target.position) % 2 == 1 {
            u = spot_traced(work, plan, program, target, d, c, t, u);
        }
    }
    u
}
