// Boats, positions and states by their numbers: what each loop of the search does with one of them.
#![tactic(auto)]

ghost use Rattle.std.specs.Prelude.{◌≡◌, true, ℕ, ◌+◌, ◌*◌, ◌-◌, ◌^◌, ◌/◌, ◌%◌, ◌≤◌, ◌<◌, eqb, length};
ghost use Rattle.std.specs.Iterator.{at_most};
ghost use Rattle.positions.specs.Program.{row_at, depth_at};
ghost use Rattle.boats.specs.Table.{class_in, told_by};
ghost use Rattle.request.specs.Layout.{largest, scale, Laid};
ghost use Rattle.states.specs.Served.{boat_key, class_key, Sifted};
ghost use Rattle.states.specs.Spots.{boats_in, told_shown, met_by, outcomes, spot_in, off, on, okay, TakenBy, KinTaken, OnlyKept, TakesAll, Lowest, From, TakesLowest, Entries, target_in};

use positions::Rule;
use request::{Plan, SCALE};

// ---- boats

// The boat of a number as a word, from the boats' table in the area. 0 is the word of an unread boat, and of a number without one.
pub fn boat_of(work: &[u32], plan: Plan, x: usize) -> u32
    requires { Laid plan (length work.now) × (x < 4294967296) }
    ensures { result ≡ boats_in plan work.now x }
{
    let at = plan.boats as usize + x;
    if at < plan.codes {
        return area::word(work, at);
    }
    0
}

// The class of a boat by its number.
pub fn class_of(work: &[u32], plan: Plan, x: usize) -> u32
    requires { Laid plan (length work.now) × (x < 4294967296) }
    ensures { result ≡ class_in (boats_in plan work.now x) }
{
    class_in(boat_of(work, plan, x))
}

// The key of a boat by its number, and that of its class: 0 where it is unread.
pub fn boat_key(work: &[u32], plan: Plan, x: usize) -> usize
    requires { Laid plan (length work.now) × (x < 4294967295) }
    ensures { result ≡ boat_key (boats_in plan work.now) x }
{
    if boat_of(work, plan, x) == 0 {
        return 0;
    }
    x + 1
}

pub fn class_key(work: &[u32], plan: Plan, x: usize) -> usize
    requires { Laid plan (length work.now) × (x < 4294967296) }
    ensures { (result ≡ class_key (boats_in plan work.now) x) × (result < 257) }
{
    let word = boat_of(work, plan, x);
    if word == 0 {
        return 0;
    }
    class_in(word) as usize + 1
}

// What comparing two boats tells. Each has a bit of its own in a mask of outcomes.
#[derive(Clone, Copy)]
pub enum Told {
    Unread = 0,
    SameBoat = 1,
    SameClass = 2,
    OtherClass = 3,
}

// The class of a boat's word.
fn class_in(word: u32) -> u32
    ensures { result ≡ class_in word }
{
    word / 16777216
}

// Two boats compared, given by their numbers. Which boats pass, all at once, is told by `taken_by` and `kin_taken`, and agrees with it.
pub fn compared(work: &[u32], plan: Plan, a: usize, b: usize) -> Told
    requires { Laid plan (length work.now) × (a < 4294967296) × (b < 4294967296) }
    ensures { told_shown result ≡ told_by (boats_in plan work.now) a b }
{
    let first = boat_of(work, plan, a);
    if first == 0 {
        return Told::Unread;
    }
    let second = boat_of(work, plan, b);
    if second == 0 {
        return Told::Unread;
    }
    if a == b {
        return Told::SameBoat;
    }
    if class_in(first) == class_in(second) {
        Told::SameClass
    } else {
        Told::OtherClass
    }
}

// The outcomes that a rule takes, as a mask.
fn outcomes_of(rule: Rule) -> u64
    ensures { result ≡ outcomes rule }
{
    match rule {
        Rule::Never => 0,
        Rule::Always => 15,
        Rule::Same => 2,
        Rule::Other => 12,
        Rule::Sister => 4,
        Rule::Foreign => 8,
    }
}

// Does the rule take what the comparison told? By a mask, so that it is compiled to a shift: asked about one by one, six rules are a jump.
pub fn meets(rule: Rule, told: Told) -> bool
    ensures { result ≡ met_by rule (told_shown told) }
{
    (outcomes_of(rule) >> (told as u64)) % 2 == 1
}

// ---- a position by its numbers

// Its kind and rule, whether it pushes, radix^level of the level that the rule reads, and radix^depth.
#[derive(Clone, Copy)]
pub struct Spot {
    pub kind: usize,
    pub rule: Rule,
    pub push: bool,
    pub level: usize,
    pub weight: usize,
}

// radix^e. No stack is deeper than three. Asked in halves, so that it is compiled to comparisons and not to a jump by a table.
pub fn power(radix: usize, e: usize) -> usize
    requires { (0 < radix) × (e ≤ 3) × (radix ^ e ≤ 1048576) }
    ensures { result ≡ radix ^ e }
{
    if e < 2 {
        if e == 0 {
            return 1;
        }
        return radix;
    }
    if e == 2 {
        return radix * radix;
    }
    radix * radix * radix
}

// Position `c`.
pub fn spot_at(program: &[u64; 128], radix: usize, c: usize) -> Spot
    requires c_bound { (c < 64) × (0 < radix) }
    requires c_bound_2 { (radix ^ (row_at program.now c).level ≤ largest) × (radix ^ depth_at program.now c ≤ largest) }
    ensures { result ≡ spot_in program.now radix c }
{
    let row = positions::row_at(program, c);
    Spot {
        kind: usize::from(row.kind),
        rule: row.rule,
        push: row.push,
        level: power(radix, usize::from(row.level)),
        weight: power(radix, usize::from(row.depth)),
    }
}

// The stack before the position, of the stack after it.
#[tactic(auto, unfolding(crate::specs::Spots::off))]
pub fn take_off(spot: Spot, v: usize) -> usize
    requires { 0 < spot.weight }
    ensures { result ≡ off spot v }
{
    if spot.push { v % spot.weight } else { v }
}

// The stack after the position, of the stack before it and the line's boat number.
#[tactic(auto, using(crate::proofs::Bounds::product_small), unfolding(crate::specs::Spots::on))]
pub fn put_on(spot: Spot, u: usize, code: u32) -> usize
    requires { (spot.weight ≤ largest) × (u < 4294967296) }
    ensures { result ≡ on spot u code }
{
    if spot.push {
        code as usize * spot.weight + u
    } else {
        u
    }
}

// The rest of a number by a weight. A division is left out where it would change nothing, here and below.
pub fn cut(v: usize, weight: usize) -> usize
    requires { 0 < weight }
    ensures { (result ≡ v % weight) × (result < weight) }
{
    if v < weight {
        return v;
    }
    if weight == 1 {
        return 0;
    }
    v % weight
}

// A stack without the entries below the level.
fn above(stack: usize, level: usize) -> usize
    requires { 0 < level }
    ensures { result ≡ stack / level }
{
    if level == 1 {
        return stack;
    }
    if stack < level {
        return 0;
    }
    stack / level
}

// The boat number at a level of a stack.
pub fn entry_at(stack: usize, level: usize, radix: usize) -> usize
    requires { (0 < level) × (0 < radix) }
    ensures { (result ≡ stack / level % radix) × (result < radix) }
{
    cut(above(stack, level), radix)
}

// Does the boat number `code` pass the rule, against the stack before the position?
pub fn passes(work: &[u32], plan: Plan, spot: Spot, code: u32, v: usize) -> bool
    requires { Laid plan (length work.now) × (0 < spot.level) }
    ensures { result ≡ okay (boats_in plan work.now) plan.radix spot code v }
{
    if spot.rule == Rule::Always {
        return true;
    }
    let kept = entry_at(v, spot.level, plan.radix);
    meets(spot.rule, compared(work, plan, code as usize, kept))
}

// The boat number at a level of a stack, by the level's number.
fn kept_in(stack: usize, level: usize, radix: usize) -> usize
    requires { (0 < radix) × (level ≤ 3) }
    ensures { (result ≡ stack / radix ^ level % radix) × (result < radix) }
{
    if level == 0 {
        if stack < radix {
            return stack;
        }
        return stack % radix;
    }
    let first = stack / radix;
    if level == 1 {
        return first % radix;
    }
    let second = first / radix;
    if level == 2 {
        return second % radix;
    }
    second / radix % radix
}

// Does the boat number `code` pass at position `c`, against the stack `v` before it?
pub fn passes_at(
    work: &[u32],
    plan: Plan,
    program: &[u64; 128],
    c: usize,
    code: u32,
    v: usize,
) -> bool
    requires { Laid plan (length work.now) × (c < 64) }
    ensures { result ≡ okay (boats_in plan work.now) plan.radix (spot_in program.now plan.radix c) code v }
{
    let row = positions::row_at(program, c);
    if row.rule == Rule::Always {
        return true;
    }
    let kept = kept_in(v, usize::from(row.level), plan.radix);
    meets(row.rule, compared(work, plan, code as usize, kept))
}

// The stack after position `c`, of the stack before it and the line's boat number. A power is made only where there is a push.
pub fn put_on_at(program: &[u64; 128], radix: usize, c: usize, u: usize, code: u32) -> usize
    requires { (c < 64) × (0 < radix) × (radix ^ depth_at program.now c ≤ largest) × (u < 4294967296) }
    ensures { result ≡ on (spot_in program.now radix c) u code }
{
    let row = positions::row_at(program, c);
    if row.push {
        return code as usize * power(radix, usize::from(row.depth)) + u;
    }
    u
}

// Which boats pass, by their numbers, once the boat that the rule compares with is known. `Ask` says nothing: each is to be asked about. It
// is a case and not the none of an option, since every caller tells all five apart in one match.
#[derive(Clone, Copy)]
pub enum Takes {
    Any,
    Only(usize),
    ReadBut(usize),
    Nobody,
    Ask,
}

// The same of the rules that compare classes.
#[derive(Clone, Copy)]
pub enum Kin {
    Sister(usize),
    Foreign(usize),
}

// Whatever the stack, does only the boat pass that stands at the rule's level, if it is read?
pub fn wants_kept(spot: Spot) -> bool
    ensures { result ≡ true → OnlyKept spot }
{
    spot.rule == Rule::Same
}

// Whatever the stack, does every boat pass?
pub fn takes_all(spot: Spot) -> bool
    ensures { result ≡ true → TakesAll spot }
{
    spot.rule == Rule::Always
}

// What the lines of a thin table were told apart by: their boats, their classes, or, in each class, their boats.
#[derive(Clone, Copy)]
pub enum Sieve {
    Boats,
    Classes,
    Sisters,
}

// The sieve whose thin lines are enough for the position; none where no fewer than all are. For thin ones it must not push, and, whatever
// the stack, take a set that is served.
pub fn enough(spot: Spot) -> Option<Sieve>
    ensures { Sifted spot result }
{
    if spot.push {
        None
    } else {
        match spot.rule {
            Rule::Never | Rule::Always | Rule::Other => Some(Sieve::Boats),
            Rule::Same => None,
            Rule::Sister => Some(Sieve::Sisters),
            Rule::Foreign => Some(Sieve::Classes),
        }
    }
}

// The state at a place and a position with a stack.
pub fn state_at(plan: Plan, place: usize, position: usize, stack: usize) -> usize
    requires size_value { (plan.size ≡ plan.places * (plan.done + 1) * plan.stacks) × (plan.size ≤ largest) × (plan.done ≤ 63) }
    requires place_lt_places { (place < plan.places) × (position ≤ plan.done) × (stack < plan.stacks) }
    ensures { (result ≡ (place * (plan.done + 1) + position) * plan.stacks + stack) × (result < plan.size) }
{
    (place * (plan.done + 1) + position) * plan.stacks + stack
}

// Is the state `s` at the place `q`? Asked without a division, since most lines start elsewhere.
pub fn stands_at(plan: Plan, s: usize, q: usize) -> bool
    requires { (0 < plan.stacks) × ((plan.done + 1) * plan.stacks ≤ largest) × (plan.done ≤ 63) × (q < 4294967296) }
    ensures { result ≡ eqb q (s / plan.stacks / (plan.done + 1)) }
{
    let block = (plan.done + 1) * plan.stacks;
    let low = q * block;
    low <= s && s - low < block
}

// A number below 2^20 divided by the stacks, as a multiplication by their inverse.
fn by_stacks(plan: Plan, n: usize) -> usize
    requires { (0 < plan.stacks) × (plan.stacks ≤ largest) × (n ≤ largest) × (plan.inverse ≡ scale / plan.stacks + 1) }
    ensures { result ≡ n / plan.stacks }
{
    n * plan.inverse / SCALE
}

// The place of the state `s`.
pub fn place_of(plan: Plan, s: usize) -> usize
    requires { (0 < plan.stacks) × (plan.stacks ≤ largest) × (s ≤ largest) × (plan.inverse ≡ scale / plan.stacks + 1) × (plan.done ≤ 63) }
    ensures { result ≡ s / plan.stacks / (plan.done + 1) }
{
    by_stacks(plan, s) / (plan.done + 1)
}

// The position and the stack of a state.
#[derive(Clone, Copy)]
pub struct Stand {
    pub position: usize,
    pub stack: usize,
}

// Those of the state `s`, which is at the place `q`, without a division by the stacks.
pub fn standing_at(plan: Plan, s: usize, q: usize) -> Stand
    requires stacks_nonzero { (0 < plan.stacks) × ((plan.done + 1) * plan.stacks ≤ largest) × (plan.done ≤ 63) × (q < 4294967296) }
    requires done_value { (eqb q (s / plan.stacks / (plan.done + 1)) ≡ true) × (plan.inverse ≡ scale / plan.stacks + 1) }
    ensures { (result.position ≡ s / plan.stacks % (plan.done + 1)) × (result.stack ≡ s % plan.stacks) }
{
    let low = q * ((plan.done + 1) * plan.stacks);
    let rest = s - low;
    let position = by_stacks(plan, rest);
    Stand {
        position,
        stack: rest - position * plan.stacks,
    }
}

// ---- positions as a mask

// The lowest position of a mask that has one.
pub fn lowest(mask: u64) -> usize
    requires { 0 < mask }
    ensures { (result < 64) × Lowest mask result }
{
    mask.trailing_zeros() as usize
}

// A mask without its lowest position.
pub fn rest_of(mask: u64) -> u64
    requires { 0 < mask }
    ensures { (result < mask) × ((k : ℕ) → Lowest mask k → From mask (k + 1) result) }
{
    mask & (mask - 1)
}

// The positions of a mask, from its lowest to its last.
#[derive(Clone, Copy)]
pub struct Positions(pub u64);

impl Iterator for Positions {
    type Item = usize;

    ghost next_gives = { λ s k t. TakesLowest s.0 k t.0 };

    ghost remaining = { λ s. at_most s.0 };

    fn next(&mut self) -> Option<usize> {
        if self.0 == 0 {
            None
        } else {
            let k = lowest(self.0);
            self.0 = rest_of(self.0);
            Some(k)
        }
    }
}

// ---- a state that is expanded, by its numbers

// A state that is expanded: its place, its position, the position's depth, radix^depth, its stack cut to that depth, and the stack's two
// lowest entries, which many positions compare with.
#[derive(Clone, Copy)]
pub struct Target {
    pub place: usize,
    pub position: usize,
    pub depth: usize,
    pub weight: usize,
    pub stack: usize,
    pub first: usize,
    pub second: usize,
}

// The state `t` by its numbers.
pub fn target_of(program: &[u64; 128], plan: Plan, t: usize) -> Target
    requires stacks_nonzero { (0 < plan.stacks) × (0 < plan.radix) × (plan.done ≤ 63) × ((k : ℕ) → k ≤ plan.done → plan.radix ^ depth_at program.now k ≤ largest) }
    requires stacks_le_largest { (plan.stacks ≤ largest) × (t ≤ largest) × (plan.inverse ≡ scale / plan.stacks + 1) }
    ensures { result ≡ target_in program.now plan t }
{
    let spots = by_stacks(plan, t);
    let position = spots % (plan.done + 1);
    let depth = positions::depth_at(program, position);
    let weight = power(plan.radix, depth);
    let stack = cut(t - spots * plan.stacks, weight);
    let first = cut(stack, plan.radix);
    let second = entry_at(stack, plan.radix, plan.radix);
    Target {
        place: spots / (plan.done + 1),
        position,
        depth,
        weight,
        stack,
        first,
        second,
    }
}

// The boat number at a level of its stack.
fn kept_at(radix: usize, target: Target, level: usize) -> usize
    requires { (0 < radix) × (0 < level) × Entries radix target }
    ensures { (result ≡ target.stack / level % radix) × (result < radix) }
{
    if level == 1 {
        return target.first;
    }
    if level == radix {
        return target.second;
    }
    entry_at(target.stack, level, radix)
}

// The boats that pass against its stack, as the stack before the position. Where the kept boat is unread, nobody does.
pub fn taken_by(work: &[u32], plan: Plan, spot: Spot, target: Target) -> Takes
    requires { Laid plan (length work.now) × (0 < spot.level) × Entries plan.radix target }
    ensures { TakenBy (boats_in plan work.now) plan.radix spot target.stack result }
{
    if spot.rule == Rule::Always {
        return Takes::Any;
    }
    if spot.rule == Rule::Never {
        return Takes::Nobody;
    }
    let kept = kept_at(plan.radix, target, spot.level);
    if boat_of(work, plan, kept) == 0 {
        return Takes::Nobody;
    }
    match spot.rule {
        Rule::Same => Takes::Only(kept),
        Rule::Other => Takes::ReadBut(kept),
        _ => Takes::Ask,
    }
}

// Those that pass by their classes; none where the rule does not compare these or the kept boat is unread. Apart from the others, which are
// asked for at nearly every step: a question more there is compiled to a jump.
pub fn kin_taken(work: &[u32], plan: Plan, spot: Spot, target: Target) -> Option<Kin>
    requires { Laid plan (length work.now) × (0 < spot.level) × Entries plan.radix target }
    ensures { KinTaken (boats_in plan work.now) plan.radix spot target.stack result }
{
    let kept = kept_at(plan.radix, target, spot.level);
    if boat_of(work, plan, kept) == 0 {
        return None;
    }
    match spot.rule {
        Rule::Sister => Some(Kin::Sister(kept)),
        Rule::Foreign => Some(Kin::Foreign(kept)),
        _ => None,
    }
}
