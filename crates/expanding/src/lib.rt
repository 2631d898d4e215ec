// A state expanded, backward: each state before it that has no word gets one, by the sorted lines where they are there.
#![tactic(auto)]

ghost use Rattle.std.specs.Prelude.{◌≡◌, true, suc, ◌+◌, ◌*◌, ◌-◌, ◌^◌, ◌/◌, ◌%◌, ◌≤◌, ◌<◌, length, get_or};
ghost use Rattle.positions.specs.Program.{bit_of, follow_at};
ghost use Rattle.automaton.specs.Shape.{deeper};
ghost use Rattle.request.specs.Layout.{largest, Laid};
ghost use Rattle.graph.specs.Loops.{turns};
ghost use Rattle.graph.specs.Table.{push};
ghost use Rattle.states.specs.Pairs.{ReadyBack, StepBack, RoomBack, StepBackAny};
ghost use Rattle.search.specs.Loaded.{setting_at};
ghost use Rattle.search.specs.Moves.{expand};
ghost use Rattle.sorted.specs.Sorting.{keys, pack_by};
ghost use Rattle.sorted.specs.declared.Order.TheVariants as Orders;
ghost use Rattle.ways.specs.Ways.{run_lines, Narrow, Plain, ThinLane, Told, Gives, Before};
ghost use Rattle.ways.specs.Filed.{Filed};
ghost use Rattle.ways.specs.Stacked.{Words};
ghost use Rattle.expanding.specs.Backing.{Backing};
ghost use Rattle.expanding.specs.Stepping.{Steps, Entries, entries_turn, WantsSame, EntryBelow, EntryAmong};
ghost use Rattle.expanding.specs.Undoing.{undone, line_undone, word_undone, words_undone, lines_back, undo_of, Undoing, InStates, NothingBack, NothingByLine, LeadsTo};
ghost use Rattle.states.specs.Spots.{front, boats_in, Sane, stack_at, Aimed, Starts, spot_turn};

use request::Plan;
use sorted::{Order, PACK};
use states::{Sieve, Spot, Target};
use ways::{ClassWay, Lane, Way};

// ---- the stacks of one line

// One stack `v` after the position: it is undone for the line's boat, and the state before is pushed. Most states have been met before, so that is
// asked first.
fn one_stack(
    work: &mut [u32],
    plan: Plan,
    spot: Spot,
    d: u32,
    home: usize,
    code: u32,
    v: usize,
    tail: usize,
) -> usize
    requires room_back { RoomBack plan tail work.old }
    requires laid { Laid plan (length work.old) }
    requires sane { Sane spot }
    requires d_nonzero { (0 < d) × (d ≤ suc tail) × (home + v < plan.size) }
    ensures { StepBackAny plan (stack_at (boats_in plan work.old) plan.radix spot d home code v) tail work.old result work.new }
{
    let u = states::take_off(spot, v);
    if area::dist_at(work, plan.base, plan.size, tail, home + u) != 0 {
        return tail;
    }
    if states::put_on(spot, u, code) == v && states::passes(work, plan, spot, code, u) {
        return area::push_if_new(work, plan.base, plan.size, d, home + u, tail);
    }
    tail
}

// The stacks after a position that are undone: x * weight + stack, for each x below `count`. The states before get the word `d`.
#[derive(Clone, Copy)]
pub struct Undo {
    pub spot: Spot,
    pub weight: usize,
    pub stack: usize,
    pub count: usize,
    pub d: u32,
}

// Each stack, one after the other.
fn over_each(work: &mut [u32], plan: Plan, undo: Undo, home: usize, code: u32, tail: usize) -> usize
    requires undoing { Undoing plan undo tail work.old }
    requires in_states { InStates plan undo home }
    ensures { StepBackAny plan (undone plan undo (boats_in plan work.old) home code) tail work.old result work.new }
{
    let mut t = tail;
    for x in 0..undo.count {
        t = one_stack(
            work,
            plan,
            undo.spot,
            undo.d,
            home,
            code,
            x * undo.weight + undo.stack,
            t,
        );
    }
    t
}

// The states `first`, `first` + `weight` and so on, `many` of them, are pushed.
fn over_low(
    work: &mut [u32],
    plan: Plan,
    d: u32,
    first: usize,
    weight: usize,
    many: usize,
    tail: usize,
) -> usize
    requires room_back { RoomBack plan tail work.old }
    requires d_nonzero { (0 < d) × (d ≤ suc tail) × (plan.size ≤ largest) × Steps first weight many plan.size }
    ensures { StepBackAny plan (turns (λ l. push d (first + l * weight)) 0 many) tail work.old result work.new }
{
    let mut t = tail;
    for l in 0..many {
        t = area::push_if_new(work, plan.base, plan.size, d, first + l * weight, t);
    }
    t
}

// Each stack whose entry at one level is the line's boat: `below` stacks of the entries under that level, for each of `above` over it.
fn over_entries(
    work: &mut [u32],
    plan: Plan,
    undo: Undo,
    home: usize,
    code: usize,
    below: usize,
    above: usize,
    tail: usize,
) -> usize
    requires undoing { Undoing plan undo tail work.old }
    requires weight_nonzero { (0 < undo.weight) × (0 < below) × Entries plan undo home code below above }
    ensures { StepBackAny plan (turns (entries_turn plan undo home code below) 0 above) tail work.old result work.new }
{
    let mut t = tail;
    for h in 0..above {
        let first = home + ((h * plan.radix + code) * below * undo.weight + undo.stack);
        t = over_low(work, plan, undo.d, first, undo.weight, below, t);
    }
    t
}

// Is the entry at the level one of those below the weight?
fn entry_below(radix: usize, level: usize, weight: usize) -> bool
    requires { (0 < radix) × (0 < level) }
    ensures { result ≡ true → EntryBelow radix level weight }
{
    weight % level == 0 && weight / level % radix == 0
}

// Is the entry at the level one of those of `count` stacks over the weight, and is the boat one that it can be?
fn entry_among(radix: usize, level: usize, weight: usize, count: usize, code: u32) -> bool
    requires { (0 < radix) × (0 < level) × (0 < weight) }
    ensures { result ≡ true → EntryAmong radix level weight count code }
{
    let below = level / weight;
    level % weight == 0
        && below != 0
        && count % below == 0
        && count / below % radix == 0
        && (code as usize) < radix
}

// Each stack, of a position that takes only the boat at its level and does not push. The entry at that level is one of the state's, the
// same for all of them, or one of those that are gone over, of which the line's boat is taken alone, and none where that is unread.
fn over_same(work: &mut [u32], plan: Plan, undo: Undo, home: usize, code: u32, tail: usize) -> usize
    requires undoing { Undoing plan undo tail work.old }
    requires in_states { InStates plan undo home }
    requires wants_same { WantsSame undo }
    ensures { StepBackAny plan (undone plan undo (boats_in plan work.old) home code) tail work.old result work.new }
{
    let spot = undo.spot;
    if entry_below(plan.radix, spot.level, undo.weight) {
        if states::entry_at(undo.stack, spot.level, plan.radix) != code as usize {
            return tail;
        }
        return over_each(work, plan, undo, home, code, tail);
    }
    let below = spot.level / undo.weight;
    if entry_among(plan.radix, spot.level, undo.weight, undo.count, code) {
        if states::boat_of(work, plan, code as usize) == 0 {
            return tail;
        }
        let above = undo.count / below / plan.radix;
        return over_entries(work, plan, undo, home, code as usize, below, above, tail);
    }
    over_each(work, plan, undo, home, code, tail)
}

// Does the position take only the boat at its level, without a push? And is the stack that is kept below the weight?
fn wants_same(undo: Undo) -> bool
    ensures { result ≡ true → WantsSame undo }
{
    !undo.spot.push && states::wants_kept(undo.spot) && undo.stack < undo.weight
}

// Each stack, for a line with the boat number `code`; `home` is the state with the empty stack at the line's start.
fn try_stacks(
    work: &mut [u32],
    plan: Plan,
    undo: Undo,
    home: usize,
    code: u32,
    tail: usize,
) -> usize
    requires undoing { Undoing plan undo tail work.old }
    requires in_states { InStates plan undo home }
    ensures { StepBackAny plan (undone plan undo (boats_in plan work.old) home code) tail work.old result work.new }
{
    if wants_same(undo) {
        return over_same(work, plan, undo, home, code, tail);
    }
    over_each(work, plan, undo, home, code, tail)
}

// Is one stack undone, by a position that does not push, and has the state before been met?
fn met_alone(work: &[u32], plan: Plan, undo: Undo, home: usize, tail: usize) -> bool
    requires undoing { Undoing plan undo tail work.now }
    requires in_states { InStates plan undo home }
    ensures { result ≡ true → NothingBack plan undo home tail work.now }
{
    undo.count == 1
        && !undo.spot.push
        && area::dist_at(work, plan.base, plan.size, tail, home + undo.stack) != 0
}

// The same, unless it would do nothing: of the lines into a place most come from states that have been met.
fn over_stacks(
    work: &mut [u32],
    plan: Plan,
    undo: Undo,
    home: usize,
    code: u32,
    tail: usize,
) -> usize
    requires undoing { Undoing plan undo tail work.old }
    requires in_states { InStates plan undo home }
    ensures { StepBackAny plan (undone plan undo (boats_in plan work.old) home code) tail work.old result work.new }
{
    if met_alone(work, plan, undo, home, tail) {
        return tail;
    }
    try_stacks(work, plan, undo, home, code, tail)
}

// ---- each line

// Line `i`, if it leads to the place and is of the position's kind: gone back over to the position `c`.
pub fn one_line(
    work: &mut [u32],
    plan: Plan,
    undo: Undo,
    place: usize,
    c: usize,
    i: usize,
    tail: usize,
) -> usize
    requires undoing { Undoing plan undo tail work.old }
    requires starts { Starts plan (front plan work.old) × (i < plan.lines) }
    requires leads_to { LeadsTo plan undo c }
    ensures { StepBackAny plan (line_undone plan undo (front plan work.old) place c i) tail work.old result work.new }
{
    let line = area::word(work, plan.words + i);
    if request::to_of(line) == place && request::kind_of(line) == undo.spot.kind {
        let code = area::word(work, plan.codes + i);
        let home = states::state_at(plan, request::from_of(line), c, 0);
        return over_stacks(work, plan, undo, home, code, tail);
    }
    tail
}

// Is it known that line `i` finds nothing at the position `c`, since the one state that it could find has been met? For a loop that asks this of
// each line, before it hands on what `one_line` needs.
pub fn line_met(work: &[u32], plan: Plan, undo: Undo, c: usize, i: usize, tail: usize) -> bool
    requires undoing { Undoing plan undo tail work.now }
    requires starts { Starts plan (front plan work.now) × (i < plan.lines) }
    requires leads_to { LeadsTo plan undo c }
    ensures { result ≡ true → NothingByLine plan undo c i tail work.now }
{
    let line = area::word(work, plan.words + i);
    let home = states::state_at(plan, request::from_of(line), c, 0);
    met_alone(work, plan, undo, home, tail)
}

// Each line, one after the other.
fn over_lines(
    work: &mut [u32],
    plan: Plan,
    undo: Undo,
    place: usize,
    c: usize,
    tail: usize,
) -> usize
    requires undoing { Undoing plan undo tail work.old }
    requires starts { Starts plan (front plan work.old) }
    requires leads_to { LeadsTo plan undo c }
    ensures { StepBackAny plan (turns (line_undone plan undo (front plan work.old) place c) 0 plan.lines) tail work.old result work.new }
{
    let mut t = tail;
    for i in 0..plan.lines {
        t = one_line(work, plan, undo, place, c, i, t);
    }
    t
}

// The stacks of the depth `leaves` after a position that are the state's when they are cut to its depth.
pub fn undo_of(plan: Plan, spot: Spot, target: Target, d: u32, leaves: usize) -> Undo
    requires { (0 < plan.radix) × (leaves ≤ 3) × (plan.radix ^ (leaves - target.depth) ≤ largest) }
    ensures { result ≡ undo_of plan spot target d leaves }
{
    Undo {
        spot,
        weight: target.weight,
        stack: target.stack,
        count: states::power(plan.radix, leaves.saturating_sub(target.depth)),
        d,
    }
}

// Each line, for each stack of the depth `leaves`.
fn by_stack(
    work: &mut [u32],
    plan: Plan,
    spot: Spot,
    target: Target,
    d: u32,
    c: usize,
    leaves: usize,
    tail: usize,
) -> usize
    requires ready_back { ReadyBack plan tail work.old }
    requires laid { Laid plan (length work.old) × Told plan (front plan work.old) }
    requires before { Before plan spot target c leaves }
    requires d_nonzero { (0 < d) × (d ≤ suc tail) }
    ensures { StepBack plan (lines_back plan (front plan work.old) spot target d c leaves) tail work.old result work.new }
{
    let undo = undo_of(plan, spot, target, d, leaves);
    over_lines(work, plan, undo, target.place, c, tail)
}

// ---- the sorted lines

// The word `p` of the sorted lines: gone back over to the position `c`.
fn one_stacked(work: &mut [u32], plan: Plan, undo: Undo, c: usize, p: usize, tail: usize) -> usize
    requires undoing { Undoing plan undo tail work.old }
    requires p_in_bounds { (p < length work.old) × (get_or work.old p 0 / pack_by < plan.places) }
    requires leads_to { LeadsTo plan undo c }
    ensures { StepBackAny plan (word_undone plan undo (boats_in plan work.old) c (get_or work.old p 0)) tail work.old result work.new }
{
    let e = area::word(work, p);
    let home = states::state_at(plan, (e / PACK) as usize, c, 0);
    over_stacks(work, plan, undo, home, e % PACK, tail)
}

// The words from `lo` up to `hi`, which stand after the pair of stretches.
fn over_stacked(
    work: &mut [u32],
    plan: Plan,
    undo: Undo,
    c: usize,
    lo: usize,
    hi: usize,
    tail: usize,
) -> usize
    requires undoing { Undoing plan undo tail work.old }
    requires words { Words plan work.old lo hi }
    requires leads_to { LeadsTo plan undo c }
    ensures { StepBackAny plan (words_undone plan undo work.old c lo hi) tail work.old result work.new }
{
    let mut t = tail;
    for p in lo..hi {
        t = one_stacked(work, plan, undo, c, p, t);
    }
    t
}

// Each stack of the depth `leaves`, for those of the sorted lines that are enough.
fn by_sorted(
    work: &mut [u32],
    plan: Plan,
    spot: Spot,
    target: Target,
    d: u32,
    c: usize,
    leaves: usize,
    tail: usize,
) -> usize
    requires ready_back { ReadyBack plan tail work.old }
    requires laid { Laid plan (length work.old) × Told plan (front plan work.old) }
    requires before { Before plan spot target c leaves }
    requires d_nonzero { (0 < d) × (d ≤ suc tail) }
    requires filed { Filed plan work.old }
    ensures { StepBack plan (lines_back plan (front plan work.old) spot target d c leaves) tail work.old result work.new }
{
    let undo = undo_of(plan, spot, target, d, leaves);
    let run = ways::lines_for(work, plan, spot, target);
    over_stacked(work, plan, undo, c, run.lo, run.hi, tail)
}

// The lines of the kind that the key `k` says, for a lane that asks for classes: by the thin ones of its sieve where they are there. It is
// called in two places, so that it is compiled apart from the steps that nearly every search takes.
fn over_class(
    work: &mut [u32],
    plan: Plan,
    sieve: Sieve,
    k: usize,
    lane: Lane,
    d: u32,
    tail: usize,
) -> usize
    requires ready_back { ReadyBack plan tail work.old }
    requires laid { Laid plan (length work.old) × Filed plan work.old × (k < keys Orders.Kind plan) }
    requires narrow { Narrow lane × Gives Orders.Kind plan (front plan work.old) k lane × ThinLane sieve (boats_in plan work.old) lane }
    requires d_nonzero { (0 < d) × (d ≤ suc tail) }
    ensures { StepBack plan (run_lines Orders.Kind plan work.old k d lane) tail work.old result work.new }
{
    if ways::has_thin(work, plan, sieve) {
        return ways::over_thin::<true>(work, plan, sieve, k, lane, d, tail);
    }
    ways::over_run::<true>(work, plan, Order::Kind, k, lane, d, tail)
}

// The lines of the kind that the key `k` says, by the thin ones where they are enough for the lane.
fn over_kind(work: &mut [u32], plan: Plan, k: usize, lane: Lane, d: u32, tail: usize) -> usize
    requires ready_back { ReadyBack plan tail work.old }
    requires laid { Laid plan (length work.old) × Filed plan work.old × (k < keys Orders.Kind plan) }
    requires narrow { Narrow lane × Gives Orders.Kind plan (front plan work.old) k lane × Plain lane }
    requires d_nonzero { (0 < d) × (d ≤ suc tail) }
    ensures { StepBack plan (run_lines Orders.Kind plan work.old k d lane) tail work.old result work.new }
{
    if ways::thin_lane(lane) {
        return ways::over_thin::<false>(work, plan, Sieve::Boats, k, lane, d, tail);
    }
    ways::over_run::<false>(work, plan, Order::Kind, k, lane, d, tail)
}

// Where the stack after the position is the state's: by classes, where the rule compares these, and else with the one stack.
fn by_exact(
    work: &mut [u32],
    plan: Plan,
    spot: Spot,
    target: Target,
    d: u32,
    c: usize,
    tail: usize,
) -> usize
    requires ready_back { ReadyBack plan tail work.old }
    requires laid { Laid plan (length work.old) × Told plan (front plan work.old) }
    requires before { Before plan spot target c target.depth }
    requires d_nonzero { (0 < d) × (d ≤ suc tail) }
    requires filed { Filed plan work.old }
    ensures { StepBack plan (lines_back plan (front plan work.old) spot target d c target.depth) tail work.old result work.new }
{
    match ways::class_way(work, plan, spot, target, c) {
        Some(ClassWay::Sister(k, lane)) => over_class(work, plan, Sieve::Sisters, k, lane, d, tail),
        Some(ClassWay::Foreign(k, lane)) => over_class(
            work,
            plan,
            Sieve::Classes,
            k,
            lane,
            d,
            tail,
        ),
        None => by_sorted(work, plan, spot, target, d, c, target.depth, tail),
    }
}

// The ways that few searches take.
fn by_rest(
    work: &mut [u32],
    plan: Plan,
    spot: Spot,
    target: Target,
    d: u32,
    c: usize,
    leaves: usize,
    tail: usize,
) -> usize
    requires ready_back { ReadyBack plan tail work.old }
    requires laid { Laid plan (length work.old) × Told plan (front plan work.old) }
    requires before { Before plan spot target c leaves }
    requires d_nonzero { (0 < d) × (d ≤ suc tail) }
    requires filed { Filed plan work.old }
    ensures { StepBack plan (lines_back plan (front plan work.old) spot target d c leaves) tail work.old result work.new }
{
    if leaves == target.depth {
        return by_exact(work, plan, spot, target, d, c, tail);
    }
    by_sorted(work, plan, spot, target, d, c, leaves, tail)
}

// The lines that lead back to position `c`, from the run of the sorted lines that has them where there is one.
fn over_way(
    work: &mut [u32],
    plan: Plan,
    spot: Spot,
    target: Target,
    d: u32,
    c: usize,
    leaves: usize,
    tail: usize,
) -> usize
    requires ready_back { ReadyBack plan tail work.old }
    requires laid { Laid plan (length work.old) × Told plan (front plan work.old) }
    requires before { Before plan spot target c leaves }
    requires d_nonzero { (0 < d) × (d ≤ suc tail) }
    requires filed { Filed plan work.old }
    ensures { StepBack plan (lines_back plan (front plan work.old) spot target d c leaves) tail work.old result work.new }
{
    match ways::way_of(work, plan, spot, target, leaves, c) {
        Way::ByBoat(k, lane) => ways::over_run::<false>(work, plan, Order::Boat, k, lane, d, tail),
        Way::ByKind(k, lane) => over_kind(work, plan, k, lane, d, tail),
        Way::ByStack => by_rest(work, plan, spot, target, d, c, leaves, tail),
        Way::Nowhere => tail,
    }
}

// The stack's depth after a position.
pub fn leaves_of(depth: usize, push: bool) -> usize
    requires { depth ≤ 3 }
    ensures { result ≡ deeper push depth }
{
    depth + usize::from(push)
}

// The position `c`, which the target's may come after: the lines that lead back to it, by the sorted ones where the plan has them.
pub fn one_spot(
    work: &mut [u32],
    plan: Plan,
    program: &[u64; 128],
    target: Target,
    d: u32,
    c: usize,
    tail: usize,
) -> usize
    requires ready_back { ReadyBack plan tail work.old }
    requires backing { Backing plan program.now work.old }
    requires aimed { Aimed plan target }
    requires d_nonzero { (0 < d) × (d ≤ suc tail) × (c < plan.done) × (bit_of (follow_at program.now c) target.position ≡ 1) }
    ensures { StepBack plan (spot_turn program.now plan (front plan work.old) target d c) tail work.old result work.new }
{
    let spot = states::spot_at(program, plan.radix, c);
    let leaves = leaves_of(positions::depth_at(program, c), spot.push);
    if plan.filed {
        return over_way(work, plan, spot, target, d, c, leaves, tail);
    }
    by_stack(work, plan, spot, target, d, c, leaves, tail)
}

// The state `t` is expanded: each state before it that has no word gets the word `d`.
pub fn expand_state(
    work: &mut [u32],
    plan: Plan,
    program: &[u64; 128],
    d: u32,
    t: usize,
    tail: usize,
) -> usize
    requires ready_back { ReadyBack plan tail work.old }
    requires backing { Backing plan program.now work.old }
    requires d_nonzero { (0 < d) × (d ≤ suc tail) × (t < plan.size) }
    ensures { StepBack plan (expand (setting_at program.now plan work.old) d t) tail work.old result work.new }
{
    let target = states::target_of(program, plan, t);
    let mut u = tail;
    for c in 0..plan.done {
        if (positions::follow_at(program, c) >> target.position) % 2 == 1 {
            u = one_spot(work, plan, program, target, d, c, u);
        }
    }
    u
}
