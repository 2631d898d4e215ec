// Requests: questions 15 to 17 and 27, the search size, the layout of the work area, loading the record into it and clearing it.
#![tactic(auto)]

ghost use Rattle.std.specs.Prelude.{◌≡◌, ◌++◌, map, suc, ◌+◌, ◌*◌, ◌^◌, ◌<◌, ◌≤◌, length, take, drop, replicate};
ghost use Rattle.meaning.specs.Outcome.{told};
ghost use Rattle.meaning.specs.Request.{need, ask_request, words_of, ask_search, search_words_of};
ghost use Rattle.meaning.specs.Record.{boats};
ghost use Rattle.boats.specs.Codes.{codes};
ghost use Rattle.boats.specs.Table.{boat_table};
ghost use Rattle.record.specs.Promise.{line_shown};
ghost use Rattle.record.specs.Reading.{written_shown};
ghost use Rattle.record.specs.Whole.{lines_of};
ghost use Rattle.windows.specs.Promise.{windows_in, options_shown};
ghost use Rattle.request.specs.Loading.{next_after, part_after};
ghost use Rattle.request.specs.Layout.{largest, table_words, boat_words, Laid, Fitting, line_word, word_met, met_by, from_in, to_in, kind_in, boats_loaded, loaded_of};
ghost use Rattle.request.specs.Promise.{words_reply};
ghost use Rattle.refusals.specs.Refusal.{outcome, mapped};
ghost use Rattle.request.specs.Asking.{BothTold, Small, size_within, ask_sized, CountsTold, CountsNumbers, ask_weight, weight_of, Light, Answers, AnswersSearch, Numbers};

use record::{FIRST_LINE, Line, Written};
use refusals::Refusal;
use windows::Options;

// The largest search size.
const LARGEST: usize = 1048576;

// The words that a search needs besides four for each state.
const EXTRA: usize = 8192;

// The word from which the tables of a search that is begun stand; what it keeps of itself stands before.
pub const TABLES: usize = 209;

// An inverse is this number, 2^42, divided by another.
pub const SCALE: usize = 4398046511104;

// The numbers of a search, and where each of its tables begins in the work area. Numbers of one width stand together: the plan is passed by
// value, and at 128 bytes or less it is copied without a call.
#[derive(Clone, Copy, Debug, PartialEq, Eq)]
pub struct Plan {
    pub places: usize,
    pub lines: usize,
    // The pattern's unfolded count: positions are 0 up to this one, the end.
    pub done: usize,
    // The different boats and one.
    pub radix: usize,
    // radix to the power of keeps: how many stacks of kept boats there are.
    pub stacks: usize,
    // SCALE divided by stacks, and one: a number below 2^20 times this, divided by SCALE, is that number divided by stacks.
    pub inverse: usize,
    // The search size: places, positions and stacks.
    pub size: usize,
    // What is loaded, from `boats` on: the boats by their numbers, where some are kept, each line's boat number, and the lines.
    pub codes: usize,
    pub words: usize,
    // The search's pairs of stretches of `size` words: phase one's distances and its queue from `base` on, phase two's marks and its
    // frontiers from `marks` on, which is where the queue was.
    pub base: usize,
    pub marks: usize,
    // Phase one's sorted lines, after its pair: by place and kind, by place and boat, and those by kind that are enough where only the
    // place that a line comes from matters; and two words for each place, by which these are made. `filed` says that there is room.
    pub thin: usize,
    pub stamps: usize,
    pub bykind: u32,
    pub byboat: u32,
    // Phase two's sorted lines, after its pair: by the place that they come from. `ordered` says that there is room.
    pub bystart: u32,
    // The boats by their numbers. All tables stand from this word on.
    pub boats: u32,
    pub keeps: u8,
    pub filed: bool,
    pub ordered: bool,
}

// ---- the questions

// A record and a pattern that pass their questions, by their counts.
#[derive(Clone, Copy, Debug, PartialEq, Eq)]
pub struct Both {
    pub places: usize,
    pub lines: usize,
    pub unfolded: usize,
    pub keeps: usize,
}

// The questions of the record, then those of the pattern; what goes with the question has no part in them.
fn ask_both(day: &[u8], pattern: &[u8]) -> Result<Both, Refusal>
    ensures both { BothTold day.now pattern.now result }
    ensures small { Small result }
{
    let record = record::read_record(day)?;
    let tree = pattern::read_pattern(pattern)?;
    Ok(Both {
        places: record.places,
        lines: record.lines,
        unfolded: tree.unfolded,
        keeps: tree.keeps,
    })
}

// The search size, places × (unfolded count + 1) × radix to the power of keeps, step by step; none above the limit.
pub fn size_of(places: usize, unfolded: usize, radix: usize, keeps: usize) -> Option<usize>
    requires { (places ≤ 1024) × (unfolded ≤ 63) × (0 < radix) × (radix ≤ 4097) }
    ensures { result ≡ size_within (places * suc unfolded * radix ^ keeps) }
{
    let mut size = places * (unfolded + 1);
    for _ in 0..keeps {
        size *= radix;
        if LARGEST < size {
            return None;
        }
    }
    Some(size)
}

// The same of a record and a pattern. Where nothing is kept there is one stack, whatever the boats, and they are not counted.
fn sized(day: &[u8], both: Both) -> Option<usize>
    requires { (both.lines ≡ length (lines_of day.now)) × (both.places ≤ 1024) × (both.unfolded ≤ 63) }
    ensures { result ≡ size_within (both.places * suc both.unfolded * suc (length (boats (lines_of day.now))) ^ both.keeps) }
{
    if both.keeps == 0 {
        return size_of(both.places, both.unfolded, 1, 0);
    }
    let mut numbers: [u16; 4096] = [0; 4096];
    let count = boats::number_boats(day, both.lines, &mut numbers);
    size_of(both.places, both.unfolded, count.boats + 1, both.keeps)
}

// The words that a search of a size needs.
fn words_for(size: usize) -> usize
    requires { size ≤ largest }
    ensures { result ≡ need size }
{
    4 * size + EXTRA
}

// The words that a search of a size needs that is begun with so many lines.
fn search_words_for(size: usize, lines: usize) -> usize
    requires { (size ≤ largest) × (lines ≤ 4096) }
    ensures { result ≡ need size + 3 * lines }
{
    words_for(size) + 3 * lines
}

// ---- the plan

// How many words a table of sorted lines has.
fn table_words(keys: usize, lines: usize) -> usize
    requires { (keys < 4294967296) × (lines ≤ 4096) }
    ensures { result ≡ table_words keys lines }
{
    keys + 1 + lines
}

// How many words the boats' table has.
pub fn boat_words(keeps: usize, radix: usize) -> usize
    ensures { result ≡ boat_words keeps radix }
{
    if keeps == 0 { 0 } else { radix }
}

// The layout of an area of `area` words, from word `at` on, computed here and nowhere else.
pub fn planned(
    places: usize,
    lines: usize,
    done: usize,
    keeps: usize,
    radix: usize,
    size: usize,
    at: usize,
    area: usize,
) -> Plan
    requires { Fitting places lines done keeps radix size at area }
    ensures laid { Laid result area }
    ensures numbers { (result.places ≡ places) × (result.lines ≡ lines) × (result.done ≡ done) × (result.keeps ≡ keeps) × (result.radix ≡ radix) × (result.boats ≡ at) }
{
    let stacks = size / (places * (done + 1));
    let inverse = SCALE / stacks + 1;
    let codes = at + boat_words(keeps, radix);
    let words = codes + lines;
    let base = words + lines;
    let marks = base + size;
    let bykind = base + 2 * size;
    let byboat = bykind + table_words(places * 16, lines);
    let thin = byboat + table_words(places * radix, lines);
    let stamps = thin + table_words(places * 16, lines);
    let filed_end = stamps + 2 * places;
    let bystart = bykind + size;
    let ordered_end = bystart + table_words(places, lines);
    Plan {
        places,
        lines,
        done,
        radix,
        stacks,
        inverse,
        size,
        codes,
        words,
        base,
        marks,
        thin,
        stamps,
        bykind: bykind as u32,
        byboat: byboat as u32,
        bystart: bystart as u32,
        boats: at as u32,
        keeps: keeps as u8,
        filed: filed_end <= area,
        ordered: ordered_end <= area,
    }
}

// What questions 1 to 16 tell of a request that passes them: its numbers, with the different boats and one, and the search size.
#[derive(Clone, Copy, Debug, PartialEq, Eq)]
pub struct Counts {
    pub places: usize,
    pub lines: usize,
    pub unfolded: usize,
    pub keeps: usize,
    pub radix: usize,
    pub size: usize,
}

// All questions up to 16. Where they pass, each line's boat has its number.
fn ask_counts(
    day: &[u8],
    pattern: &[u8],
    from: u16,
    to: u16,
    options: Options,
    numbers: &mut [u16; 4096],
) -> Result<Counts, Refusal>
    ensures counts { CountsTold (ask_sized day.now pattern.now from to (options_shown options)) result }
    ensures numbered { CountsNumbers (lines_of day.now) numbers.new result }
{
    let both = ask_both(day, pattern)?;
    if both.places <= usize::from(from) || both.places <= usize::from(to) {
        return Err(Refusal::AskedPlaceNotThere);
    }
    if !windows::allowed(options) {
        return Err(Refusal::WindowOutOfRange);
    }
    let count = boats::number_boats(day, both.lines, numbers);
    let radix = count.boats + 1;
    let sizing = size_of(both.places, both.unfolded, radix, both.keeps);
    let size = sizing.ok_or(Refusal::SearchTooLarge)?;
    Ok(Counts {
        places: both.places,
        lines: both.lines,
        unfolded: both.unfolded,
        keeps: both.keeps,
        radix,
        size,
    })
}

// The plan of a request by its counts, from word `at` on.
fn plan_at(c: Counts, at: usize, area: usize) -> Plan
    requires { Fitting c.places c.lines c.unfolded c.keeps c.radix c.size at area }
    ensures laid { Laid result area }
    ensures numbers { (result.places ≡ c.places) × (result.lines ≡ c.lines) × (result.done ≡ c.unfolded) × (result.keeps ≡ c.keeps) × (result.radix ≡ c.radix) × (result.boats ≡ at) }
{
    planned(
        c.places, c.lines, c.unfolded, c.keeps, c.radix, c.size, at, area,
    )
}

// All questions up to 17, for a work area of so many words, which is not looked at. Where they pass, each line's boat has its number.
pub fn ask_request(
    day: &[u8],
    pattern: &[u8],
    from: u16,
    to: u16,
    options: Options,
    area: usize,
    numbers: &mut [u16; 4096],
) -> Result<Plan, Refusal>
    ensures answer { Answers (ask_request day.now pattern.now from to (options_shown options) area) area result }
    ensures numbered { Numbers (lines_of day.now) numbers.new result }
{
    let counts = ask_counts(day, pattern, from, to, options, numbers)?;
    if area < words_for(counts.size) {
        return Err(Refusal::WorkAreaTooSmall);
    }
    Ok(plan_at(counts, 0, area))
}

// The same of a search that is begun: question 17 asks for three words more for each line, and the tables stand after what the search keeps
// of itself. One function for both would be no plainer: the words needed, the first word and what is promised of the plan differ.
pub fn ask_search(
    day: &[u8],
    pattern: &[u8],
    from: u16,
    to: u16,
    options: Options,
    area: usize,
    numbers: &mut [u16; 4096],
) -> Result<Plan, Refusal>
    ensures answer { AnswersSearch (ask_search day.now pattern.now from to (options_shown options) area) area result }
    ensures numbered { Numbers (lines_of day.now) numbers.new result }
{
    let counts = ask_counts(day, pattern, from, to, options, numbers)?;
    if area < search_words_for(counts.size, counts.lines) {
        return Err(Refusal::WorkAreaTooSmall);
    }
    Ok(plan_at(counts, TABLES, area))
}

// How many lines and which search size a record and a pattern have.
#[derive(Clone, Copy, Debug, PartialEq, Eq)]
pub struct Weight {
    pub lines: usize,
    pub size: usize,
}

// Both, whatever places are asked about: questions 1 to 14, 24, 25 and 16.
fn weigh(day: &[u8], pattern: &[u8]) -> Result<Weight, Refusal>
    ensures weighed { outcome result ≡ mapped weight_of (ask_weight day.now pattern.now) }
    ensures light { Light result }
{
    let both = ask_both(day, pattern)?;
    let size = sized(day, both).ok_or(Refusal::SearchTooLarge)?;
    Ok(Weight {
        lines: both.lines,
        size,
    })
}

// The words that a record and a pattern need, whatever places are asked about: questions 1 to 14, 24, 25 and 16.
pub fn words_needed(day: &[u8], pattern: &[u8]) -> Result<usize, Refusal>
    ensures { words_reply result ≡ told (words_of day.now pattern.now) }
{
    let weight = weigh(day, pattern)?;
    Ok(words_for(weight.size))
}

// The same of a search that is begun.
pub fn search_words(day: &[u8], pattern: &[u8]) -> Result<usize, Refusal>
    ensures { words_reply result ≡ told (search_words_of day.now pattern.now) }
{
    let weight = weigh(day, pattern)?;
    Ok(search_words_for(weight.size, weight.lines))
}

// ---- the work area

// Sets every word of an area to zero.
pub fn clear(work: &mut [u32])
    ensures { work.new ≡ replicate (length work.old) 0 }
{
    work.fill(0);
}

// A line's from, to and kind in one word.
fn line_word(l: Line) -> u32
    ensures { result ≡ line_word (line_shown l) }
{
    u32::from(l.from) * 16384 + u32::from(l.to) * 16 + u32::from(l.kind)
}

// The place that a line comes from, the place that it leads to, and its kind, by its word. Whoever reads a line's word does it here.
pub fn from_of(word: u32) -> usize
    ensures { (result ≡ from_in word) × (result < 1024) }
{
    (word / 16384 % 1024) as usize
}

pub fn to_of(word: u32) -> usize
    ensures { (result ≡ to_in word) × (result < 1024) }
{
    (word / 16 % 1024) as usize
}

pub fn kind_of(word: u32) -> usize
    ensures { (result ≡ kind_in word) × (result < 16) }
{
    (word % 16) as usize
}

// The word of a line as the search meets it: one outside its kind's window has kind 0.
fn word_met(w: Written, options: &Options) -> u32
    requires { (1 ≤ w.line.kind) × (w.line.kind ≤ 15) }
    ensures { result ≡ word_met (windows_in options.now.windows) (written_shown w) }
{
    let word = line_word(w.line);
    if windows::inside(w, options) {
        return word;
    }
    word - u32::from(w.line.kind)
}

// The lines, a word each, as the search meets them.
fn load_lines(day: &[u8], options: Options, part: &mut [u32])
    requires { length part.old ≡ length (lines_of day.now) }
    ensures { part.new ≡ map line_word (met_by (options_shown options).windows (lines_of day.now)) }
{
    let mut at: usize = FIRST_LINE;
    for (i, word) in part.iter_mut().enumerate() {
        let met = record::pass_line(day, i, at);
        *word = word_met(met.written, &options);
        at = met.next;
    }
}

// Each line's boat number.
fn load_codes(numbers: &[u16], part: &mut [u32])
    requires { length part.old ≤ length numbers.now }
    ensures { part.new ≡ take (length part.old) numbers.now }
{
    for (i, word) in part.iter_mut().enumerate() {
        *word = u32::from(numbers[i]);
    }
}

// The boat of a line, whose number is `number`, if it is the next one: a boat that no earlier line has. Returns the number after it.
fn load_boat(boat: u32, number: u16, part: &mut [u32], next: usize) -> usize
    requires { number < length part.old }
    ensures { (result ≡ next_after number next) × (part.new ≡ part_after number next boat part.old) }
{
    if usize::from(number) == next {
        part[next] = boat;
        return next + 1;
    }
    next
}

// The boats by their numbers; word 0 is 0.
fn load_boats(day: &[u8], lines: usize, numbers: &[u16], part: &mut [u32])
    requires lines_value { (lines ≡ length (lines_of day.now)) × (take lines numbers.now ≡ codes (lines_of day.now)) }
    requires part_len { length part.old ≡ suc (length (boats (lines_of day.now))) }
    ensures { part.new ≡ boat_table (lines_of day.now) }
{
    part[0] = 0;
    let mut next: usize = 1;
    let mut at: usize = FIRST_LINE;
    for i in 0..lines {
        let passed = record::pass_line(day, i, at);
        next = load_boat(boats::boat_of(passed.written.line), numbers[i], part, next);
        at = passed.next;
    }
}

// The boats, where some are kept.
fn load_table(day: &[u8], plan: Plan, numbers: &[u16; 4096], work: &mut [u32])
    requires laid { Laid plan (length work.old) × (plan.lines ≡ length (lines_of day.now)) }
    requires numbers_value { take plan.lines numbers.now ≡ codes (lines_of day.now) }
    requires radix_value { plan.radix ≡ suc (length (boats (lines_of day.now))) }
    ensures { work.new ≡ take plan.boats work.old ++ (boats_loaded plan.keeps (lines_of day.now) ++ drop plan.codes work.old) }
{
    if plan.keeps == 0 {
        return;
    }
    let boats = plan.boats as usize;
    let codes = plan.codes;
    load_boats(day, plan.lines, numbers, &mut work[boats..codes]);
}

// Puts a record that passed, and the numbers of its boats, into a work area: the boats where some are kept, each line's boat number and the
// lines as the search meets them, each in its own stretch. All other words stay as they were.
pub fn load(day: &[u8], plan: Plan, numbers: &[u16; 4096], options: Options, work: &mut [u32])
    requires laid { Laid plan (length work.old) × (plan.lines ≡ length (lines_of day.now)) }
    requires numbers_value { take plan.lines numbers.now ≡ codes (lines_of day.now) }
    requires radix_value { plan.radix ≡ suc (length (boats (lines_of day.now))) }
    ensures { work.new ≡ take plan.boats work.old ++ (loaded_of plan.keeps (met_by (options_shown options).windows (lines_of day.now)) ++ drop plan.base work.old) }
{
    let codes = plan.codes;
    let words = plan.words;
    let base = plan.base;
    load_table(day, plan, numbers, work);
    load_codes(numbers, &mut work[codes..words]);
    load_lines(day, options, &mut work[words..base]);
}
