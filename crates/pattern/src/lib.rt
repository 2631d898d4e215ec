// Reading a pattern: its bytes are asked questions 8 to 13 and 24 command by command, then questions 14 and 25 (documents 01 and 02).
#![tactic(auto)]

ghost use Rattle.std.specs.Prelude.{◌≡◌, true, ◌+◌, ◌<◌, ◌≤◌, length, MatchOption};
ghost use Rattle.std.proofs.Math.Option.{none, some};
ghost use Rattle.meaning.specs.Record.{byte};
ghost use Rattle.meaning.specs.Outcome.{told};
ghost use Rattle.meaning.specs.Pattern.{shape_of, operand, operands_allowed, counts_allowed, slot_known, keep_fits, is_test, is_keep, command_with, command_at, outermost, inside, read_pattern, none_given};
ghost use Rattle.refusals.specs.Refusal.{outcome};
ghost use Rattle.pattern.specs.Capped.{capped};
ghost use Rattle.pattern.specs.Reading.{byte_of, row_of, outside_shown, command_of, command_shown, extent_at, unfolded_around, keeps_around, around_extent, joined_extent, Few};
ghost use Rattle.pattern.specs.Promise.{pattern_reply, counts_of, Small};

use refusals::Refusal;

// ---- the command table

// The commands that stand in a pattern.
#[derive(Clone, Copy, Debug, PartialEq, Eq)]
pub enum Op {
    Nothing,
    Line,
    Same,
    Other,
    Either,
    Then,
    Repeat,
    Keep,
    Sister,
    Foreign,
    Counted,
}

// The rows of the table, in the order of the commands: bytes of operands, patterns after the command.
const OPERANDS: [usize; 11] = [0, 1, 2, 2, 0, 0, 0, 2, 2, 2, 2];

const PATTERNS: [usize; 11] = [0, 0, 0, 0, 2, 2, 1, 1, 0, 0, 1];

impl Op {
    // The command of a byte, if it is one.
    #[tactic(auto, unfolding(meaning::specs::Pattern::shape_of))]
    pub fn of(b: u8) -> Option<Op>
        ensures { MatchOption result (shape_of b ≡ none) (λ op. (byte_of op ≡ b) × (shape_of b ≡ some (row_of op))) }
    {
        Some(match b {
            0x20 => Op::Nothing,
            0x21 => Op::Line,
            0x22 => Op::Same,
            0x23 => Op::Other,
            0x24 => Op::Either,
            0x25 => Op::Then,
            0x26 => Op::Repeat,
            0x27 => Op::Keep,
            0x28 => Op::Sister,
            0x29 => Op::Foreign,
            0x2A => Op::Counted,
            _ => return None,
        })
    }

    // How many bytes of operands it has.
    #[tactic(auto, unfolding(crate::specs::Reading::row_of))]
    pub fn operands(self) -> usize
        ensures { result ≡ (row_of self).operands }
    {
        OPERANDS[self as usize]
    }

    // How many patterns stand after it.
    #[tactic(auto, unfolding(crate::specs::Reading::row_of))]
    pub fn patterns(self) -> usize
        ensures { result ≡ (row_of self).patterns }
    {
        PATTERNS[self as usize]
    }

    // Is it a test of a slot's boat?
    fn is_test(self) -> bool
        ensures { result ≡ is_test (byte_of self) }
    {
        matches!(self, Op::Same | Op::Other | Op::Sister | Op::Foreign)
    }
}

// ---- one command

// What stands at one place of the bytes, questions 8 to 13 and 24 asked of it. The two operands are 0 where the command has none.
#[derive(Clone, Copy, Debug, PartialEq, Eq)]
pub struct Command {
    pub op: Op,
    pub first: u8,
    pub second: u8,
    pub patterns: usize,
    pub next: usize,
}

// What stands around a pattern: `kept` has 1 for each slot that a keep around it, or the caller, gives a boat, `given` for each slot
// that the caller does, and `depth` is how many keeps there are. `given` is apart from `kept` for what is read without the keeps around it.
#[derive(Clone, Copy, Debug, PartialEq, Eq)]
pub struct Outside {
    pub kept: [u8; 4],
    pub given: [u8; 4],
    pub depth: usize,
}

// Operand i of the command at a place; 0 where the command has none.
pub fn operand_at(src: &[u8], at: usize, operands: usize, i: usize) -> u8
    requires { at + 1 + operands ≤ length src.now }
    ensures { result ≡ operand src.now at operands i }
{
    if i < operands { src[at + 1 + i] } else { 0 }
}

// Question 11: a kind is 1 to 15, a slot 0 to 3. The two counts of 2A are neither, which is asked first: asked last, it makes every
// command take longer.
fn in_range(op: Op, first: u8, second: u8) -> bool
    ensures { result ≡ operands_allowed (byte_of op) (row_of op).operands first second }
{
    if op == Op::Counted {
        return true;
    }
    let kind = op.operands() < 1 || (1..=15).contains(&first);
    let slot = op.operands() < 2 || second < 4;
    kind && slot
}

// Question 24: of the two counts of 2A the lowest is at most the highest, and that at most 20.
fn counts_fit(op: Op, low: u8, high: u8) -> bool
    ensures { result ≡ counts_allowed (byte_of op) low high }
{
    op != Op::Counted || (low <= high && high <= 20)
}

// Question 12: a tested slot is kept by a keep around it, or given. What another command has in a slot's place is no index.
fn slot_known(op: Op, slot: u8, kept: [u8; 4]) -> bool
    requires { is_test (byte_of op) ≡ true → slot < 4 }
    ensures { result ≡ slot_known (byte_of op) slot kept }
{
    !op.is_test() || 0 < kept[usize::from(slot)]
}

// Question 13: a keep has at most two keeps around it.
fn keep_fits(op: Op, depth: usize) -> bool
    ensures { result ≡ keep_fits (byte_of op) depth }
{
    op != Op::Keep || depth < 3
}

// What a command makes of the bytes at its place.
pub fn command_with(src: &[u8], at: usize, op: Op) -> Command
    requires stands { byte_of op ≡ byte src.now at }
    requires whole { at + 1 + (row_of op).operands ≤ length src.now }
    ensures { command_of result ≡ command_with src.now at (row_of op) }
{
    let operands = op.operands();
    Command {
        op,
        first: operand_at(src, at, operands, 0),
        second: operand_at(src, at, operands, 1),
        patterns: op.patterns(),
        next: at + 1 + operands,
    }
}

// Questions 8 to 13 and 24 of the command at a place: `before` commands stand before it and `o` around it.
#[tactic(auto, unfolding(meaning::specs::Pattern::command_at))]
pub fn command_at(src: &[u8], at: usize, before: usize, o: Outside) -> Result<Command, Refusal>
    ensures { command_shown result ≡ command_at src.now at before (outside_shown o) }
{
    if src.len() <= at {
        return Err(Refusal::CommandNotKnown);
    }
    let Some(op) = Op::of(src[at]) else {
        return Err(Refusal::CommandNotKnown);
    };
    if 63 <= before {
        return Err(Refusal::TooManyCommands);
    }
    if src.len() - (at + 1) < op.operands() {
        return Err(Refusal::OperandsMissing);
    }
    let c = command_with(src, at, op);
    if !in_range(op, c.first, c.second) {
        return Err(Refusal::OperandOutOfRange);
    }
    if !counts_fit(op, c.first, c.second) {
        return Err(Refusal::RoundsOutOfRange);
    }
    if !slot_known(op, c.second, o.kept) {
        return Err(Refusal::SlotNotKept);
    }
    if !keep_fits(op, o.depth) {
        return Err(Refusal::KeepsTooDeep);
    }
    Ok(c)
}

// ---- the reader

// It stays on the caller's bytes: the slice that was lent, and a place in it.
#[derive(Clone, Copy, Debug, PartialEq, Eq)]
pub struct Reader<'a> {
    pub src: &'a [u8],
    pub at: usize,
}

// A reader at a place of the bytes.
pub fn begin_at<'a>(src: &'a [u8], at: usize) -> Reader<'a>
    ensures { (result.src ≡ src.entry) × (result.at ≡ at) }
{
    Reader { src, at }
}

// The command at the reader's place, asked what `command_at` asks.
pub fn next_command<'a>(r: Reader<'a>, before: usize, o: Outside) -> Result<Command, Refusal>
    ensures { command_shown result ≡ command_at r.entry.src.now r.entry.at before (outside_shown o) }
{
    command_at(r.src, r.at, before, o)
}

// The command at a place, by a reader that begins there: `read_at` reads every command so.
pub fn command_from(src: &[u8], at: usize, before: usize, o: Outside) -> Result<Command, Refusal>
    ensures { command_shown result ≡ command_at src.now at before (outside_shown o) }
{
    next_command(begin_at(src, at), before, o)
}

// ---- a pattern

// Around a whole pattern: the slots that have a boat from outside, and no keep.
fn outermost(given: [u8; 4]) -> Outside
    ensures { outside_shown result ≡ outermost given }
{
    Outside {
        kept: given,
        given,
        depth: 0,
    }
}

// Around the inside of a command: a keep gives its slot a boat there, and is one keep more.
fn inside(op: Op, slot: u8, mut o: Outside) -> Outside
    requires { (is_keep (byte_of op) ≡ true → slot < 4) × (o.depth ≤ 3) }
    ensures { outside_shown result ≡ inside (byte_of op) slot (outside_shown o) }
{
    if op == Op::Keep {
        o.kept[usize::from(slot)] = 1;
        o.depth += 1;
    }
    o
}

// What is told of a pattern that was read: the place after it, its commands as written, its unfolded count as `capped` counts,
// its deepest nesting of keeps.
#[derive(Clone, Copy, Debug, PartialEq, Eq)]
pub struct Extent {
    pub next: usize,
    pub commands: usize,
    pub unfolded: usize,
    pub keeps: usize,
}

// An unfolded count, where every count that is too large for question 25 is 64: no sum or product of counts is then large.
fn capped(n: usize) -> usize
    ensures { result ≡ capped n }
{
    n.min(64)
}

// The unfolded count of a command and the pattern after it: what is counted counts as often as it may come.
fn unfolded_around(op: Op, high: u8, inner: usize) -> usize
    requires { inner ≤ 64 }
    ensures { result ≡ unfolded_around (byte_of op) high inner }
{
    if op == Op::Counted {
        return capped(usize::from(high) * inner + 1);
    }
    capped(inner + 1)
}

// The keeps of a command and the pattern after it.
fn keeps_around(op: Op, keeps: usize) -> usize
    requires { keeps ≤ 3 }
    ensures { result ≡ keeps_around (byte_of op) keeps }
{
    keeps + usize::from(op == Op::Keep)
}

// A command around the pattern that was read after it; `high` is its second operand.
fn around(op: Op, high: u8, inside: Extent) -> Extent
    requires { Few inside }
    ensures { result ≡ around_extent (byte_of op) high inside }
{
    Extent {
        next: inside.next,
        commands: inside.commands + 1,
        unfolded: unfolded_around(op, high, inside.unfolded),
        keeps: keeps_around(op, inside.keeps),
    }
}

// A command and the two patterns that were read after it.
fn joined(first: Extent, second: Extent) -> Extent
    requires { Few first × Few second }
    ensures { result ≡ joined_extent first second }
{
    Extent {
        next: second.next,
        commands: first.commands + second.commands + 1,
        unfolded: capped(first.unfolded + second.unfolded + 1),
        keeps: first.keeps.max(second.keeps),
    }
}

// The pattern at a place, by recursion on the bytes left.
pub fn read_at(src: &[u8], at: usize, before: usize, o: Outside) -> Result<Extent, Refusal>
    requires { o.depth ≤ 3 }
    ensures { outcome result ≡ extent_at src.now at before (outside_shown o) }
{
    let c = command_from(src, at, before, o)?;
    if c.patterns == 0 {
        return Ok(Extent {
            next: c.next,
            commands: 1,
            unfolded: 1,
            keeps: 0,
        });
    }
    if c.patterns == 1 {
        let p = read_at(src, c.next, before + 1, inside(c.op, c.second, o))?;
        return Ok(around(c.op, c.second, p));
    }
    let p = read_at(src, c.next, before + 1, o)?;
    let q = read_at(src, p.next, before + 1 + p.commands, o)?;
    Ok(joined(p, q))
}

// ---- a pattern's bytes

// What a caller is told of a pattern: how many commands it has, as written and unfolded, and its deepest nesting of keeps.
#[derive(Clone, Copy, Debug, PartialEq, Eq)]
pub struct Counts {
    pub commands: usize,
    pub unfolded: usize,
    pub keeps: usize,
}

// Questions 8 to 14, 24 and 25, where `given` has 1 for each slot that has a boat from outside.
pub fn read_given(pattern: &[u8], given: [u8; 4]) -> Result<Counts, Refusal>
    ensures reply { pattern_reply result ≡ told (counts_of (read_pattern given pattern.now)) }
    ensures small { Small result }
{
    let e = read_at(pattern, 0, 0, outermost(given))?;
    if e.next != pattern.len() {
        return Err(Refusal::BytesAfterPattern);
    }
    if 63 < e.unfolded {
        return Err(Refusal::UnfoldedTooLong);
    }
    Ok(Counts {
        commands: e.commands,
        unfolded: e.unfolded,
        keeps: e.keeps,
    })
}

// Questions 8 to 14, 24 and 25, no slot having a boat from outside.
pub fn read_pattern(pattern: &[u8]) -> Result<Counts, Refusal>
    ensures reply { pattern_reply result ≡ told (counts_of (read_pattern none_given pattern.now)) }
    ensures small { Small result }
{
    read_given(pattern, [0, 0, 0, 0])
}
