// The search that a work area holds between its calls, taken out and put back. In front stand the numbers and the pattern's bytes, then what is
// loaded of the record, then four stretches. Every number of front and lines is checked before it is used: an area that fails a check holds no search.
// Of the four stretches no word is read here: there are up to four million, and a state taken up meets a few. Who reads one checks it.
#![tactic(auto)]

ghost use Rattle.std.specs.Prelude.{◌≡◌, true, ◌≤◌, ◌<◌, length, take};
ghost use Rattle.request.specs.Layout.{Laid};
ghost use Rattle.area.specs.Area.{patch};
ghost use Rattle.states.specs.Spots.{front};
ghost use Rattle.holding.specs.Holding.{tables_at, bytes_in, counters_in, numbers_of, CountsRange, InRange, InOrder, OfPlan, LineSound, LinesSound, PlanRight, PlanRead, TakenRight, StateRight};

use request::{Plan, TABLES};

// Where the numbers that move stand, and the pattern's bytes.
const COUNTERS: usize = 5;

const BYTES: usize = 17;

// No pattern has more bytes.
const LONGEST: usize = 192;

// ---- the numbers that move

// What a search under way does next: it goes back from the goal, or forth by the sweep; or nothing, there being no chain. Each has the number by which
// it stands in the area. A word of the area can be any number, so the counters have the word.
#[derive(Clone, Copy, Debug, PartialEq, Eq)]
pub enum Phase {
    Back = 0,
    Forth = 1,
    NoChain = 2,
}

// The numbers of a search under way, as they stand in the area: the phase, how many states are expanded, found, the word of the nearest first
// state, how many the sweep has left, the line chosen and the line noted.
#[derive(Clone, Copy)]
pub struct Counters {
    pub phase: u32,
    pub expanded: u32,
    pub found: u32,
    pub far: u32,
    pub rest: u32,
    pub chosen: u32,
    pub noted: u32,
}

// The numbers in an area.
fn read_counters(work: &[u32]) -> Counters
    requires { tables_at ≤ length work.now }
    ensures { result ≡ counters_in work.now }
{
    Counters {
        phase: area::word(work, COUNTERS),
        expanded: area::word(work, COUNTERS + 1),
        found: area::word(work, COUNTERS + 2),
        far: area::word(work, COUNTERS + 3),
        rest: area::word(work, COUNTERS + 4),
        chosen: area::word(work, COUNTERS + 5),
        noted: area::word(work, COUNTERS + 6),
    }
}

impl Counters {
    // Are the states taken up some of those found, and is the phase one?
    fn in_order(self) -> bool
        ensures { (result ≡ true → InOrder self) × (InOrder self → result ≡ true) }
    {
        self.expanded <= self.found
            && self.rest <= self.found
            && self.phase <= Phase::NoChain as u32
    }

    // Are there no more than there are states, and are the lines lines, or the count of lines?
    fn of_plan(self, size: usize, lines: usize) -> bool
        ensures { (result ≡ true → OfPlan size lines self) × (OfPlan size lines self → result ≡ true) }
    {
        self.found as usize <= size && self.chosen as usize <= lines && self.noted as usize <= lines
    }

    // The numbers back into the area.
    #[tactic(auto, unfolding(area::specs::Area::patch))]
    pub fn put_back(self, work: &mut [u32])
        requires { tables_at ≤ length work.old }
        ensures { work.new ≡ patch 5 7 (numbers_of self) work.old }
    {
        let words: [u32; 7] = [
            self.phase,
            self.expanded,
            self.found,
            self.far,
            self.rest,
            self.chosen,
            self.noted,
        ];
        work[COUNTERS..COUNTERS + 7].copy_from_slice(&words);
    }
}

// ---- the numbers that stay

// Are the boats, the places and the lines so many as there can be?
fn counts_sound(work: &[u32]) -> bool
    requires { tables_at ≤ length work.now }
    ensures { (result ≡ true → CountsRange work.now) × (CountsRange work.now → result ≡ true) }
{
    (1..=4097).contains(&area::word(work, 0))
        && (1..=1024).contains(&area::word(work, 1))
        && area::word(work, 2) <= 4096
}

// And is the place asked about one of the places, and the pattern no longer than there is room for?
fn numbers_sound(work: &[u32]) -> bool
    requires { tables_at ≤ length work.now }
    ensures { (result ≡ true → InRange work.now) × (InRange work.now → result ≡ true) }
{
    area::word(work, 3) < area::word(work, 1)
        && area::word(work, 4) as usize <= LONGEST
        && counts_sound(work)
}

// ---- the pattern's bytes

// The pattern's bytes, as many as there is room for, out of their words into the front of `bytes`. Returns how many.
pub fn pattern_bytes(work: &[u32], bytes: &mut [u8; 192]) -> usize
    requires { tables_at ≤ length work.now }
    ensures { (result ≡ length (bytes_in work.now)) × (take result bytes.new ≡ bytes_in work.now) }
{
    let said = area::word(work, 4) as usize;
    let many = said.min(LONGEST);
    let front = &mut bytes[..many];
    for (i, byte) in front.iter_mut().enumerate() {
        *byte = (area::word(work, BYTES + i) % 256) as u8;
    }
    many
}

// ---- the plan

// The plan by the numbers in front, for a pattern with so many positions and keeps, if the area has the words for it.
fn plan_of(work: &[u32], unfolded: usize, keeps: usize) -> Option<Plan>
    requires { (tables_at ≤ length work.now) × InRange work.now × (unfolded ≤ 63) × (keeps ≤ 3) }
    ensures { PlanRight work.now unfolded keeps result }
{
    let radix = area::word(work, 0) as usize;
    let places = area::word(work, 1) as usize;
    let lines = area::word(work, 2) as usize;
    let size = request::size_of(places, unfolded, radix, keeps)?;
    let base = TABLES + request::boat_words(keeps, radix) + lines + lines;
    if work.len() < base + 4 * size + (places + 1 + lines) {
        return None;
    }
    let plan = request::planned(
        places,
        lines,
        unfolded,
        keeps,
        radix,
        size,
        TABLES,
        work.len(),
    );
    Some(plan)
}

// The same for the pattern itself, if it passes its questions.
fn plan_for(work: &[u32], pattern: &[u8]) -> Option<Plan>
    requires { (tables_at ≤ length work.now) × InRange work.now }
    ensures { PlanRead work.now pattern.now result }
{
    let counts = pattern::read_pattern(pattern).ok()?;
    plan_of(work, counts.unfolded, counts.keeps)
}

// ---- the loaded lines

// Does line `i` go between the places, and is its boat's number below the radix?
fn line_sound(work: &[u32], plan: Plan, i: usize) -> bool
    requires { Laid plan (length work.now) × (i < plan.lines) }
    ensures { (result ≡ true → LineSound plan (front plan work.now) i) × (LineSound plan (front plan work.now) i → result ≡ true) }
{
    let line = area::word(work, plan.words + i);
    request::from_of(line) < plan.places
        && request::to_of(line) < plan.places
        && (area::word(work, plan.codes + i) as usize) < plan.radix
}

// Do all lines?
fn lines_sound(work: &[u32], plan: Plan) -> bool
    requires { Laid plan (length work.now) }
    ensures { (result ≡ true → LinesSound plan (front plan work.now)) × (LinesSound plan (front plan work.now) → result ≡ true) }
{
    (0..plan.lines).all(|i| line_sound(work, plan, i))
}

// ---- the search

// A search under way: where everything stands, the place asked about, and the numbers that move.
#[derive(Clone, Copy)]
pub struct SearchState {
    pub plan: Plan,
    pub from: usize,
    pub at: Counters,
}

// The search by the plan, if numbers and lines are sound.
fn state_of(work: &[u32], plan: Plan) -> Option<SearchState>
    requires { (tables_at ≤ length work.now) × Laid plan (length work.now) }
    ensures { StateRight plan work.now result }
{
    let at = read_counters(work);
    if at.in_order() && at.of_plan(plan.size, plan.lines) && lines_sound(work, plan) {
        let from = area::word(work, 3) as usize;
        return Some(SearchState { plan, from, at });
    }
    None
}

// The search that the area holds, if every number is in range; `pattern` has the pattern's bytes.
pub fn taken_out(work: &[u32], pattern: &[u8]) -> Option<SearchState>
    requires { tables_at ≤ length work.now }
    ensures { TakenRight work.now pattern.now result }
{
    if !numbers_sound(work) {
        return None;
    }
    let plan = plan_for(work, pattern)?;
    state_of(work, plan)
}
