// The compiler: from a pattern's bytes to its position automaton, written into a program.
// Two passes over the bytes, both by recursion: what a pattern begins with, and with that the entries of its positions. A counted
// pattern has the positions of its inside as often as it may come, one round after the other.
#![tactic(auto)]

ghost use Rattle.std.specs.Prelude.{◌<◌, ◌≤◌, ◌≡◌, ◌||◌, [], ◌∷◌, eqb};
ghost use Rattle.meaning.specs.Pattern.{nothing};
ghost use Rattle.automaton.specs.Automaton.{silent};
ghost use Rattle.pattern.specs.Reading.{byte_of};
ghost use Rattle.positions.specs.Masks.{Marks};
ghost use Rattle.compiler.specs.Compiling.{Passes, Stands, EndsAt, Reads, Commands, StepAt, leaf_of, skips, rounded, Begins, BeginsAt, Surrounds, BeginsAround, BeginsJoined, Entered, RoundFrom, OneMore, HeadsOf, BeginsCounted, AfterRound, Ready, ReadyRounds, Allowed, AfterFirst, AfterInner, Inner, First, Second, Counts, NextRound, Rest, Says, Small, Put, asked_rule, TakingSaid, LeafSaid, AroundSaid, CompiledAt, RoundsCompiled, CompiledFrom, SmallUpTo};

use pattern::{Command, Op};
use positions::{Row, Rule};

// ---- one command

// The command at a place.
fn step_at(src: &[u8], at: usize) -> Command
    requires { Commands src.now at }
    ensures { StepAt src.now at result }
{
    let Some(op) = Op::of(src[at]) else {
        unreachable!();
    };
    pattern::command_with(src, at, op)
}

// The place after the pattern at a place: it is passed over, and gets no position.
fn place_after(src: &[u8], at: usize) -> usize
    requires { Stands src.now at }
    ensures { EndsAt src.now at result }
{
    let c = step_at(src, at);
    if c.patterns == 0 {
        return c.next;
    }
    let then = place_after(src, c.next);
    if c.patterns == 1 {
        return then;
    }
    place_after(src, then)
}

// A counted pattern that may come no time: what is inside gets no position.
fn left_out(c: Command) -> bool
    ensures { result ≡ skips (byte_of c.op) c.second }
{
    c.op == Op::Counted && c.second == 0
}

// A counted pattern whose rounds are compiled one by one. One that comes once at most is compiled as a repeat is, so that whatever nests
// deeply takes one call for each command.
fn in_rounds(c: Command) -> bool
    ensures { result ≡ rounded (byte_of c.op) c.second }
{
    c.op == Op::Counted && c.second != 1
}

// ---- what a pattern begins with

// The place after a pattern, the position after its own, the positions of its first letters, and whether it has the empty word.
#[derive(Clone, Copy, Debug, PartialEq, Eq)]
pub struct Begin {
    pub next: usize,
    pub after: usize,
    pub heads: u64,
    pub nullable: bool,
}

// The mask of one position.
fn bit(k: usize) -> u64
    requires { k < 64 }
    ensures { Marks result (k ∷ []) }
{
    1u64 << k
}

// The positions that come next where a pattern stands and `after` may come after it.
fn entered(p: Begin, after: u64) -> u64
    ensures { Entered p after result }
{
    if p.nullable { p.heads | after } else { p.heads }
}

// One position and the empty word alone: nothing, and what may come no time.
fn begin_nothing(next: usize, base: usize) -> Begin
    requires { base < 63 }
    ensures { Begins nothing base next result }
{
    Begin {
        next,
        after: base + 1,
        heads: 0,
        nullable: true,
    }
}

// A command without patterns.
fn begin_leaf(c: Command, base: usize) -> Begin
    requires { base < 63 }
    ensures { Begins (leaf_of c) base c.next result }
{
    if c.op == Op::Nothing {
        return begin_nothing(c.next, base);
    }
    Begin {
        next: c.next,
        after: base + 1,
        heads: bit(base),
        nullable: false,
    }
}

// ---- the rounds of a counted pattern

// One round: the positions of its first letters, whether it may be empty, and how many positions it has.
#[derive(Clone, Copy, Debug, PartialEq, Eq)]
pub struct Round {
    pub heads: u64,
    pub nullable: bool,
    pub width: usize,
}

// The round that begins with p at a position.
fn round_of(p: Begin, base: usize) -> Round
    requires { base ≤ p.after }
    ensures { RoundFrom p base result }
{
    Round {
        heads: p.heads,
        nullable: p.nullable,
        width: p.after - base,
    }
}

// A round before others; `later` are the positions of their first letters if they stood in its place.
fn one_more(round: Round, later: u64) -> u64
    requires { round.width < 64 }
    ensures { OneMore round later result }
{
    if round.nullable {
        round.heads | (later << round.width)
    } else {
        round.heads
    }
}

// The positions of the first letters of so many rounds.
fn heads_of(round: Round, rounds: usize) -> u64
    requires { round.width < 64 }
    ensures { HeadsOf round rounds result }
{
    let mut heads = 0;
    for _ in 0..rounds {
        heads = one_more(round, heads);
    }
    heads
}

// May rounds end here: are none needed, or may they be empty?
fn may_end(lowest: usize, nullable: bool) -> bool
    ensures { result ≡ (eqb lowest 0 || nullable) }
{
    lowest == 0 || nullable
}

// A counted pattern; its first round begins with p.
fn begin_counted(c: Command, base: usize, p: Begin) -> Begin
    requires { Surrounds c base p }
    ensures { BeginsCounted c base p result }
{
    let round = round_of(p, base + 1);
    let rounds = usize::from(c.second);
    Begin {
        next: p.next,
        after: base + 1 + rounds * round.width,
        heads: heads_of(round, rounds),
        nullable: may_end(usize::from(c.first), p.nullable),
    }
}

// A repeat, keep or counted pattern, and the pattern in it.
fn begin_around(c: Command, base: usize, p: Begin) -> Begin
    requires { Surrounds c base p }
    ensures { BeginsAround c base p result }
{
    match c.op {
        Op::Counted => begin_counted(c, base, p),
        Op::Keep => Begin {
            heads: bit(base),
            nullable: false,
            ..p
        },
        _ => Begin {
            nullable: true,
            ..p
        },
    }
}

// An either or then, and its two patterns.
fn begin_joined(c: Command, p: Begin, q: Begin) -> Begin
    ensures { BeginsJoined c p q result }
{
    match c.op {
        Op::Either => Begin {
            heads: p.heads | q.heads,
            nullable: p.nullable || q.nullable,
            ..q
        },
        _ => Begin {
            heads: entered(p, q.heads),
            nullable: p.nullable && q.nullable,
            ..q
        },
    }
}

// The pattern at a place, its positions from `base` on.
fn begin_at(src: &[u8], at: usize, base: usize) -> Begin
    requires { Reads src.now at base }
    ensures { BeginsAt src.now at base result }
{
    let c = step_at(src, at);
    if c.patterns == 0 {
        return begin_leaf(c, base);
    }
    if left_out(c) {
        return begin_nothing(place_after(src, c.next), base);
    }
    let p = begin_at(src, c.next, base + 1);
    if c.patterns == 1 {
        return begin_around(c, base, p);
    }
    let q = begin_at(src, p.next, p.after);
    begin_joined(c, p, q)
}

// ---- what stands around a pattern

// A pattern to compile: the place of its bytes, its first position, for each slot the level of the innermost keep around it, if there is
// one, how many keeps are around it, and the positions that may come after it.
#[derive(Clone, Copy, Debug, PartialEq, Eq)]
pub struct Task {
    pub at: usize,
    pub base: usize,
    pub levels: [Option<u8>; 4],
    pub depth: u8,
    pub after: u64,
}

// What may come after the pattern in a repeat, keep or counted pattern: a turn of a repeat may be followed by another.
fn after_inner(c: Command, task: Task, p: Begin) -> u64
    ensures { AfterInner c task p result }
{
    match c.op {
        Op::Repeat => p.heads | task.after,
        _ => task.after,
    }
}

// The pattern in a repeat or keep, or in a counted pattern that comes once at most.
fn inner_task(c: Command, task: Task, p: Begin) -> Task
    requires { Allowed c task }
    ensures { Inner c task p result }
{
    let mut inner = Task {
        at: c.next,
        base: task.base + 1,
        after: after_inner(c, task, p),
        ..task
    };
    if c.op == Op::Keep {
        inner.levels[usize::from(c.second)] = Some(task.depth);
        inner.depth = task.depth + 1;
    }
    inner
}

// What may come after the first pattern of an either or then: in a then, the second.
fn after_first(c: Command, task: Task, q: Begin) -> u64
    ensures { AfterFirst c task q result }
{
    match c.op {
        Op::Either => task.after,
        _ => entered(q, task.after),
    }
}

// The first pattern of an either or then.
fn first_task(c: Command, task: Task, q: Begin) -> Task
    requires { task.base < 63 }
    ensures { First c task q result }
{
    Task {
        at: c.next,
        base: task.base + 1,
        after: after_first(c, task, q),
        ..task
    }
}

// The second pattern of an either or then: what stands around it is the same.
fn second_task(task: Task, p: Begin) -> Task
    ensures { Second task p result }
{
    Task {
        at: p.next,
        base: p.after,
        ..task
    }
}

// Rounds of a counted pattern that are to be compiled: the task of the next one, except that `after` is what may come after the last;
// how many of them are needed, and how many there are.
#[derive(Clone, Copy, Debug, PartialEq, Eq)]
pub struct Rounds {
    pub task: Task,
    pub lowest: usize,
    pub left: usize,
}

// The rounds of a counted pattern.
fn all_rounds(c: Command, task: Task) -> Rounds
    requires { task.base < 63 }
    ensures { Counts c task result }
{
    Rounds {
        task: Task {
            at: c.next,
            base: task.base + 1,
            ..task
        },
        lowest: usize::from(c.first),
        left: usize::from(c.second),
    }
}

// What may come after the next round: what the others begin with and, where they may end, what comes after the last.
fn after_round(rounds: Rounds, round: Round) -> u64
    requires { (0 < rounds.left) × (round.width < 64) }
    ensures { AfterRound rounds round result }
{
    let heads = heads_of(round, rounds.left - 1) << round.width;
    if may_end(rounds.lowest.saturating_sub(1), round.nullable) {
        heads | rounds.task.after
    } else {
        heads
    }
}

// The next round; p is what it begins with.
fn next_round(rounds: Rounds, p: Begin) -> Task
    requires { (0 < rounds.left) × (rounds.task.base ≤ p.after) × (p.after < 64) }
    ensures { NextRound rounds p result }
{
    let round = round_of(p, rounds.task.base);
    Task {
        after: after_round(rounds, round),
        ..rounds.task
    }
}

// The rounds after it.
fn rest(rounds: Rounds, p: Begin) -> Rounds
    requires { 0 < rounds.left }
    ensures { Rest rounds p result }
{
    Rounds {
        task: Task {
            base: p.after,
            ..rounds.task
        },
        lowest: rounds.lowest.saturating_sub(1),
        left: rounds.left - 1,
    }
}

// ---- the entries of a position

// What the program gets at one position.
#[derive(Clone, Copy)]
pub struct Entry {
    pub row: Row,
    pub follow: u64,
}

// A position that takes no letter.
fn silent_entry() -> Entry
    ensures { Says result silent }
{
    Entry {
        row: Row {
            kind: 0,
            rule: Rule::Never,
            level: 0,
            depth: 0,
            push: false,
        },
        follow: 0,
    }
}

// A position that takes a letter and pushes nothing.
fn taking_entry(c: Command, task: Task, rule: Rule, level: u8) -> Entry
    requires { Allowed c task }
    ensures { TakingSaid c task rule level result }
{
    Entry {
        row: Row {
            kind: c.first,
            rule,
            level,
            depth: task.depth,
            push: false,
        },
        follow: task.after,
    }
}

// The rule of a test: of command same, other, sister or foreign.
fn rule_of(op: Op) -> Rule
    ensures { result ≡ asked_rule (byte_of op) }
{
    match op {
        Op::Same => Rule::Same,
        Op::Other => Rule::Other,
        Op::Sister => Rule::Sister,
        _ => Rule::Foreign,
    }
}

// A command without patterns: nothing, line, or a test, which no value passes where no keep has the slot.
fn leaf_entry(c: Command, task: Task) -> Entry
    requires { Allowed c task }
    ensures { LeafSaid c task result }
{
    match c.op {
        Op::Nothing => silent_entry(),
        Op::Line => taking_entry(c, task, Rule::Always, 0),
        _ => match task.levels[usize::from(c.second)] {
            None => taking_entry(c, task, Rule::Never, 0),
            Some(level) => taking_entry(c, task, rule_of(c.op), level),
        },
    }
}

// A command around a pattern: a keep takes a letter and pushes its boat, the others take none.
fn around_entry(c: Command, task: Task, p: Begin) -> Entry
    requires { Allowed c task }
    ensures { AroundSaid c task p result }
{
    match c.op {
        Op::Keep => Entry {
            row: Row {
                kind: c.first,
                rule: Rule::Always,
                level: 0,
                depth: task.depth,
                push: true,
            },
            follow: entered(p, task.after),
        },
        _ => silent_entry(),
    }
}

// One position's entry is written.
fn put(program: &mut [u64; 128], i: usize, x: Entry)
    requires { i < 64 }
    ensures { Small x.row → Put i x program.old program.new }
{
    positions::put_row(program, i, x.row, x.follow);
}

// ---- a pattern

// The pattern of a task: its positions' entries, and none before them.
#[cycle(compile_at_compile_rounds)]
fn compile_at(src: &[u8], task: Task, program: &mut [u64; 128])
    requires { Ready src.now task }
    ensures { CompiledAt src.now task program.old program.new }
{
    let c = step_at(src, task.at);
    if in_rounds(c) {
        put(program, task.base, silent_entry());
        compile_rounds(src, all_rounds(c, task), program);
        return;
    }
    if c.patterns == 0 {
        put(program, task.base, leaf_entry(c, task));
        return;
    }
    let p = begin_at(src, c.next, task.base + 1);
    if c.patterns == 1 {
        put(program, task.base, around_entry(c, task, p));
        compile_at(src, inner_task(c, task, p), program);
        return;
    }
    let q = begin_at(src, p.next, p.after);
    put(program, task.base, silent_entry());
    compile_at(src, first_task(c, task, q), program);
    compile_at(src, second_task(task, p), program);
}

// Rounds of a counted pattern, one after the other: their positions' entries, and none before them.
#[cycle(compile_at_compile_rounds)]
fn compile_rounds(src: &[u8], rounds: Rounds, program: &mut [u64; 128])
    requires { ReadyRounds src.now rounds }
    ensures { RoundsCompiled src.now rounds program.old program.new }
{
    if rounds.left == 0 {
        return;
    }
    let p = begin_at(src, rounds.task.at, rounds.task.base);
    compile_at(src, next_round(rounds, p), program);
    compile_rounds(src, rest(rounds, p), program);
}

// A pattern that passes its questions: its automaton as a program, the end's position included, and the mask of where runs begin.
pub fn compile(pattern: &[u8], program: &mut [u64; 128]) -> u64
    requires { Passes pattern.now }
    ensures automaton { CompiledFrom pattern.now program.new result }
    ensures small { SmallUpTo pattern.now program.new }
{
    let p = begin_at(pattern, 0, 0);
    let end = bit(p.after);
    let whole = Task {
        at: 0,
        base: 0,
        levels: [None; 4],
        depth: 0,
        after: end,
    };
    compile_at(pattern, whole, program);
    put(program, p.after, silent_entry());
    entered(p, end)
}
