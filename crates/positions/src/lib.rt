// A pattern's automaton in one array of 128 words, its program: for each position a word that packs its row, and the mask of the
// positions that may come after it. The automaton as mathematics stands in crate automaton; crate compiler writes programs.
#![tactic(auto, unfolding(crate::specs::Program::packed, crate::specs::Program::unpacked, crate::specs::Program::row_at, crate::specs::Program::follow_at))]

ghost use Rattle.std.specs.Prelude.{◌≡◌, ◌<◌};
ghost use Rattle.positions.specs.Program.{rule_code, rule_of, packed, unpacked, Packs, row_at, follow_at, Put};

// What a position asks of a line's boat: nobody passes, everybody does, only the boat that is kept, all others, those of its class, or
// those of another class. Each has the number that stands for it in a packed row.
#[derive(Clone, Copy, Debug, PartialEq, Eq)]
pub enum Rule {
    Never = 0,
    Always = 1,
    Same = 2,
    Other = 3,
    Sister = 4,
    Foreign = 5,
}

impl From<Rule> for u8 {
    ghost from_gives = { λ rule code. code ≡ rule_code rule };

    fn from(rule: Rule) -> u8 {
        rule as u8
    }
}

// A position: its kind and rule, the stack level of the boat that the rule compares with, the stack's depth before it, and whether it
// pushes the line's boat.
#[derive(Clone, Copy)]
pub struct Row {
    pub kind: u8,
    pub rule: Rule,
    pub level: u8,
    pub depth: u8,
    pub push: bool,
}

// ---- a row in one word

// A rule as a number.
pub fn code_of(rule: Rule) -> u8
    ensures { result ≡ rule_code rule }
{
    u8::from(rule)
}

// The rule of a number; a number of no rule lets nobody pass.
fn rule_of(code: u64) -> Rule
    ensures { result ≡ rule_of code }
{
    match code {
        1 => Rule::Always,
        2 => Rule::Same,
        3 => Rule::Other,
        4 => Rule::Sister,
        5 => Rule::Foreign,
        _ => Rule::Never,
    }
}

fn pack(row: Row) -> u64
    ensures { result ≡ packed row }
{
    u64::from(row.kind)
        + u64::from(u8::from(row.rule)) * 256
        + u64::from(row.level) * 65536
        + u64::from(row.depth) * 16777216
        + u64::from(row.push) * 4294967296
}

fn unpack(word: u64) -> Row
    ensures { result ≡ unpacked word }
{
    Row {
        kind: (word % 16) as u8,
        rule: rule_of(word / 256 % 16),
        level: (word / 65536 % 4) as u8,
        depth: (word / 16777216 % 4) as u8,
        push: word / 4294967296 % 2 == 1,
    }
}

// ---- the program

// The row of position `c`.
pub fn row_at(program: &[u64; 128], c: usize) -> Row
    requires { c < 64 }
    ensures { result ≡ row_at program.now c }
{
    let i = 2 * c;
    unpack(program[i])
}

// Its kind, and its depth: the same numbers without the rest of the row.
pub fn kind_at(program: &[u64; 128], c: usize) -> usize
    requires { c < 64 }
    ensures { result ≡ (row_at program.now c).kind }
{
    let i = 2 * c;
    (program[i] % 16) as usize
}

pub fn depth_at(program: &[u64; 128], c: usize) -> usize
    requires { c < 64 }
    ensures { result ≡ (row_at program.now c).depth }
{
    let i = 2 * c;
    (program[i] / 16777216 % 4) as usize
}

// The mask of the positions that may come after position `c`.
pub fn follow_at(program: &[u64; 128], c: usize) -> u64
    requires { c < 64 }
    ensures { result ≡ follow_at program.now c }
{
    let i = 2 * c + 1;
    program[i]
}

// The row and the mask of position `c` are written, of a row whose numbers fit their bits.
pub fn put_row(program: &mut [u64; 128], c: usize, row: Row, follow: u64)
    requires { c < 64 }
    ensures { Packs row → Put c row follow program.old program.new }
{
    program[2 * c] = pack(row);
    program[2 * c + 1] = follow;
}
