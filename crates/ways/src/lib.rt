// The ways back over lines: which of the sorted lines lead to a state by a position, what state each gives, and the loop over them.
#![tactic(auto)]

ghost use Rattle.std.specs.Prelude.{◌≡◌, ℕ, suc, ◌+◌, ◌*◌, ◌-◌, ◌^◌, ◌/◌, ◌%◌, ◌≤◌, ◌<◌, length, get_or, true, false, List, eqb, IfSome};
ghost use Rattle.request.specs.Layout.{largest, Laid, filed_end};
ghost use Rattle.graph.specs.Loops.{turns};
ghost use Rattle.states.specs.Pairs.{ReadyBack, StepBack};
ghost use Rattle.ways.specs.Ways.{lane_state, taken_by, lane_turn, number_in, LaneTo, Narrow, Plain, NoClass, ThinLane, Within, run_lines, Told, Gives, Right, RightFor, ClassRight, Before};
ghost use Rattle.sorted.specs.Sorting.{keys, table_at, table_end, Keyed, Sorted, Kept};
ghost use Rattle.ways.specs.Stacked.{Enough};
ghost use Rattle.ways.specs.Filed.{Basic, Filed, Said, Sieved};
ghost use Rattle.thinned.specs.Thinning.{FromPlaces, thin_at, thin_end, Thinned};
ghost use Rattle.positions.specs.Program.{row_at};
ghost use Rattle.sorted.specs.declared.Order.TheVariants as Orders;
ghost use Rattle.states.specs.declared.Sieve.TheVariants as Sieves;
ghost use Rattle.states.specs.Spots.{front, boats_in, read_but, sister_of, foreign_to};

use positions::Rule;
use request::Plan;
use sorted::{Bounds, Order, PACK};
use states::{Kin, Sieve, Spot, Takes, Target};

// Which words are taken: all, only those with a number, those of read boats with another, and of these only those of the same class or, whatever
// their numbers, those of another class.
#[derive(Clone, Copy, PartialEq, Eq)]
pub enum Taking {
    All,
    Only(usize),
    ReadBut(usize),
    Sister(usize),
    Foreign(usize),
}

// What the words written of lines give: `from` times `block`, `home`, and the word's number times `weight` is the state before. `taking` says
// which words are taken.
#[derive(Clone, Copy, PartialEq, Eq)]
pub struct Lane {
    pub block: usize,
    pub home: usize,
    pub weight: usize,
    pub taking: Taking,
}

// A number that no word has. The read boats other than its are all read boats, which so need no question of their own in the loop.
const NONE: usize = PACK as usize;

// ---- the loop

// Is `y` the number of a read boat other than `number`'s?
fn read_but(work: &[u32], plan: Plan, number: usize, y: usize) -> bool
    requires { Laid plan (length work.now) × (y < 4294967296) }
    ensures { result ≡ read_but (boats_in plan work.now) number y }
{
    y != number && states::boat_of(work, plan, y) != 0
}

// Is `y` the number of another boat of `number`'s class? And is it that of a boat of another class?
fn sister_of(work: &[u32], plan: Plan, number: usize, y: usize) -> bool
    requires { Laid plan (length work.now) × (y < 4294967296) × (number < 4294967296) }
    ensures { result ≡ sister_of (boats_in plan work.now) number y }
{
    read_but(work, plan, number, y)
        && states::class_of(work, plan, y) == states::class_of(work, plan, number)
}

fn foreign_to(work: &[u32], plan: Plan, number: usize, y: usize) -> bool
    requires { Laid plan (length work.now) × (y < 4294967296) × (number < 4294967296) }
    ensures { result ≡ foreign_to (boats_in plan work.now) number y }
{
    states::boat_of(work, plan, y) != 0
        && states::class_of(work, plan, y) != states::class_of(work, plan, number)
}

// Is a word with the number `y` taken? Whether the lane may ask for classes is a constant of the loop below, so that the loop of a lane that
// does not is compiled without that question.
fn taken<const CLASSES: bool>(work: &[u32], plan: Plan, lane: Lane, y: usize) -> bool
    requires { Laid plan (length work.now) × (y < 4294967296) × Narrow lane × (CLASSES ≡ false → Plain lane) }
    ensures { result ≡ taken_by (boats_in plan work.now) lane.taking y }
{
    match lane.taking {
        Taking::All => true,
        Taking::Only(x) => y == x,
        Taking::ReadBut(x) => read_but(work, plan, x, y),
        Taking::Sister(x) => CLASSES && sister_of(work, plan, x, y),
        Taking::Foreign(x) => CLASSES && foreign_to(work, plan, x, y),
    }
}

// The state before, by a word written of a line.
fn lane_state(lane: Lane, e: u32) -> usize
    requires { Narrow lane }
    ensures { result ≡ lane_state lane e }
{
    let place = (e / PACK) as usize;
    let number = (e % PACK) as usize;
    place * lane.block + (lane.home + number * lane.weight)
}

// Word `p`: the state that it gives is pushed, if it is taken. Most states have been met before, so that is asked first.
fn one_word<const CLASSES: bool>(
    work: &mut [u32],
    plan: Plan,
    lane: Lane,
    d: u32,
    p: usize,
    tail: usize,
) -> usize
    requires ready_back { ReadyBack plan tail work.old }
    requires laid { Laid plan (length work.old) × Narrow lane × (CLASSES ≡ false → Plain lane) }
    requires d_nonzero { (0 < d) × (d ≤ suc tail) × (p < length work.old) × (lane_state lane (get_or work.old p 0) < plan.size) }
    ensures { StepBack plan (lane_turn (boats_in plan work.old) d lane (get_or work.old p 0)) tail work.old result work.new }
{
    let e = area::word(work, p);
    let s = lane_state(lane, e);
    if area::dist_at(work, plan.base, plan.size, tail, s) != 0 {
        return tail;
    }
    if taken::<CLASSES>(work, plan, lane, (e % PACK) as usize) {
        return area::push_if_new(work, plan.base, plan.size, d, s, tail);
    }
    tail
}

// The words from `lo` up to `hi`, which stand after the pair of stretches.
pub fn over_words<const CLASSES: bool>(
    work: &mut [u32],
    plan: Plan,
    lane: Lane,
    d: u32,
    lo: usize,
    hi: usize,
    tail: usize,
) -> usize
    requires ready_back { ReadyBack plan tail work.old }
    requires laid { Laid plan (length work.old) × Narrow lane × (CLASSES ≡ false → Plain lane) }
    requires d_nonzero { (0 < d) × (d ≤ suc tail) × (plan.base + plan.size + plan.size ≤ lo) × (lo ≤ hi) × (hi ≤ length work.old) }
    requires within { Within lane plan.size lo hi work.old }
    ensures { StepBack plan (turns (λ p. lane_turn (boats_in plan work.old) d lane (get_or work.old p 0)) lo (hi - lo)) tail work.old result work.new }
{
    let mut t = tail;
    for p in lo..hi {
        t = one_word::<CLASSES>(work, plan, lane, d, p, t);
    }
    t
}

// ---- the way

// The way from a state back to a position: by the lines of one boat into its place, by those of one kind, with each stack, one by one, or
// by no line.
#[derive(Clone, Copy, PartialEq, Eq)]
pub enum Way {
    ByBoat(usize, Lane),
    ByKind(usize, Lane),
    ByStack,
    Nowhere,
}

// The lane to position `c`, for the stack `u`.
fn lane_at(plan: Plan, c: usize, u: usize, weight: usize, taking: Taking) -> Lane
    requires { (c ≤ 63) × (plan.done ≤ 63) × (plan.stacks ≤ largest) × (u < 4294967296) }
    ensures { LaneTo plan c u weight taking result }
{
    Lane {
        block: (plan.done + 1) * plan.stacks,
        home: c * plan.stacks + u,
        weight,
        taking,
    }
}

// The lines of the boat number `boat`: the stack before is `u`. Where no boat is kept the lines are not sorted by boat.
fn boat_way(plan: Plan, spot: Spot, target: Target, c: usize, u: usize, boat: usize) -> Way
    requires { Before plan spot target c target.depth × (u < plan.stacks) × (boat < plan.radix) }
    ensures { RightFor plan spot target c (λ B x. eqb x boat) (λ x. u) result }
{
    if plan.keeps == 0 {
        return Way::ByStack;
    }
    let lane = lane_at(plan, c, u, 0, Taking::Only(spot.kind));
    Way::ByBoat(target.place * plan.radix + boat, lane)
}

// Those lines of the position's kind that are taken: the stack before is the state's, with the line's number at `weight`.
fn kind_way(plan: Plan, spot: Spot, target: Target, c: usize, weight: usize, taking: Taking) -> Way
    requires { Before plan spot target c target.depth × (weight ≤ largest) × (number_in taking ≤ largest) × NoClass taking }
    ensures { RightFor plan spot target c (λ B. taken_by B taking) (λ x. target.stack + x * weight) result }
{
    let lane = lane_at(plan, c, target.stack, weight, taking);
    Way::ByKind(target.place * 16 + spot.kind, lane)
}

// Of a position that pushes, where the stack after it is the state's: the boat on top is the line's.
fn pushing_way(plan: Plan, spot: Spot, target: Target, c: usize) -> Way
    requires { Before plan spot target c target.depth × (spot.push ≡ true) }
    ensures { (g : List ℕ) → Told plan g → Right plan g spot target c 1 result }
{
    let x = target.stack / spot.weight;
    if plan.radix <= x {
        return Way::ByStack;
    }
    let u = target.stack % spot.weight;
    if states::takes_all(spot) {
        return boat_way(plan, spot, target, c, u, x);
    }
    Way::ByStack
}

// The stack after the position is the state's.
fn exact_way(work: &[u32], plan: Plan, spot: Spot, target: Target, c: usize) -> Way
    requires before { Before plan spot target c target.depth }
    requires laid { Laid plan (length work.now) × Told plan (front plan work.now) }
    ensures { Right plan (front plan work.now) spot target c 1 result }
{
    if spot.push {
        return pushing_way(plan, spot, target, c);
    }
    match states::taken_by(work, plan, spot, target) {
        Takes::Any => kind_way(plan, spot, target, c, 0, Taking::All),
        Takes::Only(x) => boat_way(plan, spot, target, c, target.stack, x),
        Takes::ReadBut(x) => kind_way(plan, spot, target, c, 0, Taking::ReadBut(x)),
        Takes::Nobody => Way::Nowhere,
        Takes::Ask => Way::ByStack,
    }
}

// Of a position that pushes, where the boat on top is forgotten after it.
fn dropping_way(plan: Plan, spot: Spot, target: Target, c: usize) -> Way
    requires { Before plan spot target c (suc target.depth) × (spot.push ≡ true) }
    ensures { (g : List ℕ) → Told plan g → Right plan g spot target c plan.radix result }
{
    if spot.weight == target.weight && states::takes_all(spot) {
        return kind_way(plan, spot, target, c, 0, Taking::All);
    }
    Way::ByStack
}

// The stack after the position has one boat more than the state's: any, or, where the position wants just that boat, the line's.
fn forgetting_way(plan: Plan, spot: Spot, target: Target, c: usize) -> Way
    requires { Before plan spot target c (suc target.depth) }
    ensures { (g : List ℕ) → Told plan g → Right plan g spot target c plan.radix result }
{
    if spot.push {
        return dropping_way(plan, spot, target, c);
    }
    if spot.level == target.weight && states::wants_kept(spot) {
        return kind_way(plan, spot, target, c, target.weight, Taking::ReadBut(NONE));
    }
    Way::ByStack
}

// The way from a state back to position `c`, which leaves stacks of the depth `leaves`.
pub fn way_of(work: &[u32], plan: Plan, spot: Spot, target: Target, leaves: usize, c: usize) -> Way
    requires before { Before plan spot target c leaves }
    requires laid { Laid plan (length work.now) × Told plan (front plan work.now) }
    ensures { Right plan (front plan work.now) spot target c (plan.radix ^ (leaves - target.depth)) result }
{
    if leaves == target.depth {
        return exact_way(work, plan, spot, target, c);
    }
    if leaves == target.depth + 1 {
        return forgetting_way(plan, spot, target, c);
    }
    Way::ByStack
}

// ---- the way by classes

// The lines of one kind, where other boats of one class are asked for, or boats of other classes. Apart from the ways above, which nearly every
// search takes: with two more of them these are compiled to slower code.
#[derive(Clone, Copy, PartialEq, Eq)]
pub enum ClassWay {
    Sister(usize, Lane),
    Foreign(usize, Lane),
}

// The way by classes, where the stack after the position is the state's and it does not push.
pub fn class_way(work: &[u32], plan: Plan, spot: Spot, target: Target, c: usize) -> Option<ClassWay>
    requires before { Before plan spot target c target.depth }
    requires laid { Laid plan (length work.now) × Told plan (front plan work.now) }
    ensures { IfSome result (ClassRight plan (front plan work.now) spot target c) }
{
    if spot.push {
        return None;
    }
    let kin = states::kin_taken(work, plan, spot, target)?;
    let k = target.place * 16 + spot.kind;
    Some(match kin {
        Kin::Sister(x) => ClassWay::Sister(k, lane_at(plan, c, target.stack, 0, Taking::Sister(x))),
        Kin::Foreign(x) => ClassWay::Foreign(
            k,
            lane_at(plan, c, target.stack, 0, Taking::Foreign(x)),
        ),
    })
}

// ---- a run

// The lines of the key `k`, of a sorted table.
pub fn over_run<const CLASSES: bool>(
    work: &mut [u32],
    plan: Plan,
    order: Order,
    k: usize,
    lane: Lane,
    d: u32,
    tail: usize,
) -> usize
    requires ready_back { ReadyBack plan tail work.old }
    requires laid { Laid plan (length work.old) × (k < keys order plan) }
    requires sorted { Sorted order plan (table_at order plan) work.old × (table_end order plan ≤ length work.old) }
    requires narrow { Narrow lane × Gives order plan (front plan work.old) k lane × (CLASSES ≡ false → Plain lane) × (0 < d) × (d ≤ suc tail) }
    ensures { StepBack plan (run_lines order plan work.old k d lane) tail work.old result work.new }
{
    let run = sorted::run_of(work, plan, order, k);
    over_words::<CLASSES>(work, plan, lane, d, run.lo, run.hi, tail)
}

// Are the thin lines of boats enough for the lane? Their numbers must have no weight, and those that it takes be a set that is served.
pub fn thin_lane(lane: Lane) -> bool
    ensures { result ≡ true → (B : ℕ → ℕ) → ThinLane Sieves.Boats B lane }
{
    lane.weight == 0 && matches!(lane.taking, Taking::All | Taking::ReadBut(_))
}

// Is the thin table of a sieve there, which is not made for every request? It needs its room, and its first word is not 0.
fn is_made(work: &[u32], plan: Plan, sieve: Sieve) -> bool
    requires { Laid plan (length work.now) }
    ensures { result ≡ true → Said sieve plan work.now }
{
    thinned::thin_end(plan, sieve) <= work.len()
        && area::word(work, thinned::thin_at(plan, sieve)) != 0
}

// That of the boats is there.
pub fn has_thin(work: &[u32], plan: Plan, sieve: Sieve) -> bool
    requires { Laid plan (length work.now) × Filed plan work.now }
    ensures { result ≡ true → Sieved sieve plan work.now }
{
    match sieve {
        Sieve::Boats => true,
        Sieve::Classes | Sieve::Sisters => is_made(work, plan, sieve),
    }
}

// The lines of the kind that the key `k` says, by the thin ones: for a lane for which they are enough.
pub fn over_thin<const CLASSES: bool>(
    work: &mut [u32],
    plan: Plan,
    sieve: Sieve,
    k: usize,
    lane: Lane,
    d: u32,
    tail: usize,
) -> usize
    requires ready_back { ReadyBack plan tail work.old }
    requires laid { Laid plan (length work.old) × Filed plan work.old × Sieved sieve plan work.old × (k < keys Orders.Kind plan) }
    requires narrow { Narrow lane × Gives Orders.Kind plan (front plan work.old) k lane × ThinLane sieve (boats_in plan work.old) lane × (CLASSES ≡ false → Plain lane) × (0 < d) × (d ≤ suc tail) }
    ensures { StepBack plan (run_lines Orders.Kind plan work.old k d lane) tail work.old result work.new }
{
    let run = thinned::thin_of(work, plan, sieve, k);
    over_words::<CLASSES>(work, plan, lane, d, run.lo, run.hi, tail)
}

// ---- the tables

// The words that are enough for a position whose stacks are gone over one by one: the lines of its kind, and of them the thin ones where
// they do and are there.
pub fn lines_for(work: &[u32], plan: Plan, spot: Spot, target: Target) -> Bounds
    requires laid { Laid plan (length work.now) × Told plan (front plan work.now) }
    requires filed { Filed plan work.now }
    requires kind_bound { (spot.kind ≤ 15) × (target.place < plan.places) }
    ensures { Enough plan spot target work.now result.lo result.hi }
{
    let k = target.place * 16 + spot.kind;
    match states::enough(spot) {
        Some(sieve) if has_thin(work, plan, sieve) => thinned::thin_of(work, plan, sieve, k),
        _ => sorted::run_of(work, plan, Order::Kind, k),
    }
}

// The lines are sorted by boat, if boats are kept: no position asks for one boat's lines otherwise.
fn sort_boats(work: &mut [u32], plan: Plan)
    requires laid { Laid plan (length work.old) }
    requires keyed { Keyed Orders.Boat plan work.old × (table_end Orders.Boat plan ≤ length work.old) }
    ensures sorted { 0 < plan.keeps → Sorted Orders.Boat plan plan.byboat work.new }
    ensures kept { Kept plan.byboat (table_end Orders.Boat plan) work.old work.new }
{
    if plan.keeps != 0 {
        sorted::sort_lines(work, plan, Order::Boat);
    }
}

// Does a position of the program have the rule? A search without such a position needs no table of its own for it.
fn asks(program: &[u64; 128], done: usize, rule: Rule) -> bool
    requires { done ≤ 63 }
    ensures { result ≡ false → (c : ℕ) → c < done → (row_at program.now c).rule ≡ rule → ⊥ }
{
    (0..done).any(|c| positions::row_at(program, c).rule == rule)
}

// The thin table of a sieve is made, where it is asked for. Else its first word becomes 0.
fn thin_more(work: &mut [u32], plan: Plan, sieve: Sieve, asked: bool)
    requires laid { Laid plan (length work.old) }
    requires sorted { Sorted Orders.Kind plan plan.bykind work.old × FromPlaces plan work.old × (thin_end sieve plan (thin_at sieve plan) ≤ length work.old) }
    ensures thinned { Said sieve plan work.new → Thinned sieve plan plan.bykind (thin_at sieve plan) work.new }
    ensures kept { Kept (thin_at sieve plan) (thin_end sieve plan (thin_at sieve plan)) work.old work.new }
{
    if asked {
        thinned::thin_lines(work, plan, sieve);
    } else {
        area::write(work, thinned::thin_at(plan, sieve), 1, 0, 0);
    }
}

// The thin tables of classes and of sisters, where there is room.
fn thin_others(work: &mut [u32], plan: Plan, program: &[u64; 128])
    requires { Laid plan (length work.old) × Told plan (front plan work.old) × Basic plan work.old }
    ensures filed { Filed plan work.new }
    ensures kept { Kept (filed_end plan) (length work.old) work.old work.new }
{
    if work.len() < thinned::thin_end(plan, Sieve::Classes) {
        return;
    }
    thin_more(
        work,
        plan,
        Sieve::Classes,
        asks(program, plan.done, Rule::Foreign),
    );
    if work.len() < thinned::thin_end(plan, Sieve::Sisters) {
        return;
    }
    thin_more(
        work,
        plan,
        Sieve::Sisters,
        asks(program, plan.done, Rule::Sister),
    );
}

// The lines are sorted by kind and by boat, and thinned by boats.
fn file_basic(work: &mut [u32], plan: Plan)
    requires laid { Laid plan (length work.old) }
    requires told { Told plan (front plan work.old) × (filed_end plan ≤ length work.old) }
    ensures basic { Basic plan work.new }
    ensures kept { Kept plan.bykind (filed_end plan) work.old work.new }
{
    sorted::sort_lines(work, plan, Order::Kind);
    sort_boats(work, plan);
    thinned::thin_lines(work, plan, Sieve::Boats);
}

// The lines are sorted by kind and by boat, and thinned, where there is room.
pub fn file_lines(work: &mut [u32], plan: Plan, program: &[u64; 128])
    requires laid { Laid plan (length work.old) }
    requires told { Told plan (front plan work.old) }
    ensures filed { plan.filed ≡ true → Filed plan work.new }
    ensures kept { Kept plan.bykind (length work.old) work.old work.new }
{
    if plan.filed {
        file_basic(work, plan);
        thin_others(work, plan, program);
    }
}
