// The day's record: reading its bytes, going over its lines, and reading one back.
#![tactic(auto)]

ghost use Rattle.std.specs.Prelude.{◌≡◌, suc, ◌+◌, ◌*◌, ◌<◌, ◌≤◌, length, drop, eqb};
ghost use Rattle.meaning.specs.Outcome.{ask, passed, told};
ghost use Rattle.meaning.specs.Record.{byte, two, three, four, width, time_of, line_of, ask_line, time_allowed, line_entry, entry_at, lines_from, places_whole, read_record};
ghost use Rattle.meaning.specs.Writing.{same_line, line_at, read_of};
ghost use Rattle.record.specs.Whole.{lines_of};
ghost use Rattle.record.specs.Cursor.{start_of};
ghost use Rattle.record.specs.Promise.{line_reply, line_shown};
ghost use Rattle.record.specs.Reading.{head_word, tail_word, untimed, time_shown, width_shown, written_shown, entry_width, counts_of};
ghost use Rattle.refusals.specs.Refusal.{outcome, mapped};

use refusals::Refusal;

// The five operands of a line.
#[derive(Clone, Copy, Debug, PartialEq, Eq)]
pub struct Line {
    pub from: u16,
    pub kind: u8,
    pub class: u8,
    pub sail: u32,
    pub to: u16,
}

// A line as it is written: its operands, and its time, seconds since midnight, where it is timed.
#[derive(Clone, Copy, Debug, PartialEq, Eq)]
pub struct Written {
    pub line: Line,
    pub time: Option<u32>,
}

// A line gone over, and the byte at which the next one begins.
#[derive(Clone, Copy)]
pub struct Met {
    pub written: Written,
    pub next: usize,
}

// A line of a record beside another line: whether they are the same, and the byte at which the record's next line begins.
#[derive(Clone, Copy)]
pub struct Beside {
    pub same: bool,
    pub next: usize,
}

// A record that passes its questions: how many places and lines it has.
#[derive(Clone, Copy, Debug, PartialEq, Eq)]
pub struct Counts {
    pub places: usize,
    pub lines: usize,
}

// The limits of questions 1, 2, 22 and 28.
const LONGEST: usize = 57348;

const MOST_PLACES: u16 = 1024;

const MOST_LINES: usize = 4096;

const DAY: u32 = 86400;

// The byte at which line 0 begins, and how many bytes an untimed line and a timed one have.
pub const FIRST_LINE: usize = 3;

const LINE_BYTES: usize = 10;

const TIMED_BYTES: usize = 14;

// The commands: the end, a line, a timed line.
const END: u8 = 0;

const LINE: u8 = 2;

const TIMED: u8 = 3;

// ---- numbers in bytes, the high byte first

fn two_at(s: &[u8], i: usize) -> u16
    requires { i + 1 < length s.now }
    ensures { result ≡ two s.now i }
{
    u16::from(s[i]) * 256 + u16::from(s[i + 1])
}

fn three_at(s: &[u8], i: usize) -> u32
    requires { i + 2 < length s.now }
    ensures { (result ≡ three s.now i) × (result < 16777216) }
{
    u32::from(two_at(s, i)) * 256 + u32::from(s[i + 2])
}

fn four_at(s: &[u8], i: usize) -> u32
    requires { i + 3 < length s.now }
    ensures { result ≡ four s.now i }
{
    u32::from(two_at(s, i)) * 65536 + u32::from(two_at(s, i + 2))
}

// ---- a line in bytes

// The operands of the line whose bytes s begins with, but for its time.
fn line_of(s: &[u8]) -> Line
    requires { 10 ≤ length s.now }
    ensures { (line_shown result ≡ untimed (line_of s.now)) × (result.sail < 16777216) }
{
    let from = two_at(s, 1);
    let sail = three_at(s, 5);
    let to = two_at(s, 8);
    Line {
        from,
        kind: s[3],
        class: s[4],
        sail,
        to,
    }
}

// How many bytes a line has, timed or not.
fn width_of(timed: bool) -> usize
    ensures { result ≡ width_shown timed }
{
    if timed { TIMED_BYTES } else { LINE_BYTES }
}

// The time of the line whose bytes s begins with, if it is timed.
fn time_of(s: &[u8], timed: bool) -> Option<u32>
    requires { (timed ≡ eqb (byte s.now 0) 3) × (width_shown timed ≤ length s.now) }
    ensures { time_shown result ≡ time_of s.now }
{
    if timed { Some(four_at(s, 10)) } else { None }
}

// The line whose bytes s begins with. Whoever reads a line does it here.
fn written_of(s: &[u8], timed: bool) -> Written
    requires { (timed ≡ eqb (byte s.now 0) 3) × (width_shown timed ≤ length s.now) }
    ensures { (written_shown result ≡ line_of s.now) × (result.line.sail < 16777216) }
{
    let line = line_of(s);
    let time = time_of(s, timed);
    Written { line, time }
}

// ---- questions 1 to 7, 22 and 28

// Question 28 of a time.
fn in_the_day(time: Option<u32>) -> bool
    ensures { result ≡ time_allowed (time_shown time) }
{
    match time {
        Some(second) => second < DAY,
        None => true,
    }
}

// Questions 5, 6 and 28 of a line. Returns how many bytes it has.
pub fn line_asked(w: Written, places: usize) -> Result<usize, Refusal>
    ensures { outcome result ≡ ask_line places (written_shown w) (passed (width (written_shown w))) }
{
    let l = w.line;
    // both places in one test
    if places <= usize::from(l.from.max(l.to)) {
        return Err(Refusal::LinePlaceNotThere);
    }
    if l.kind == 0 {
        return Err(Refusal::LineKindOutOfRange);
    }
    if 15 < l.kind {
        return Err(Refusal::LineKindOutOfRange);
    }
    if !in_the_day(w.time) {
        return Err(Refusal::LineTimeOutOfRange);
    }
    Ok(width_of(w.time.is_some()))
}

// Questions 22, 4 to 6 and 28 of the line that s, the rest of a record, begins with, so many lines standing before it.
fn line_entry(s: &[u8], timed: bool, places: usize, lines: usize) -> Result<Option<usize>, Refusal>
    requires { timed ≡ eqb (byte s.now 0) 3 }
    ensures { outcome result ≡ mapped entry_width (line_entry places lines s.now) }
{
    if MOST_LINES <= lines {
        return Err(Refusal::RecordFull);
    }
    if s.len() < width_of(timed) {
        return Err(Refusal::LineCutShort);
    }
    let width = line_asked(written_of(s, timed), places)?;
    Ok(Some(width))
}

// All questions at the first of the bytes s, the rest of a record, so many lines standing before it. Returns how many bytes the line there has,
// and nothing at the end.
fn entry_at(s: &[u8], places: usize, lines: usize) -> Result<Option<usize>, Refusal>
    ensures { outcome result ≡ mapped entry_width (entry_at places lines s.now) }
{
    if s.is_empty() {
        return Err(Refusal::EntryNotKnown);
    }
    let command = s[0];
    if command == END {
        if s.len() == 1 {
            return Ok(None);
        }
        return Err(Refusal::BytesAfterEnd);
    }
    if command == LINE {
        return line_entry(s, false, places, lines);
    }
    if command == TIMED {
        return line_entry(s, true, places, lines);
    }
    Err(Refusal::EntryNotKnown)
}

// The questions of all that stands after the places command. Returns how many lines there are. It goes on with the bytes that are left, and not
// with an offset: the loop is shorter so, and an untimed line takes three fifths of the time (docs/PERFORMANCE.md, "After the look back").
fn lines_from(day: &[u8], places: usize) -> Result<usize, Refusal>
    requires { (3 ≤ length day.now) × (length day.now ≤ 57348) }
    ensures { outcome result ≡ mapped length (lines_from (length day.now) places 0 (drop 3 day.now)) }
{
    let mut rest = &day[FIRST_LINE..];
    let mut lines = 0;
    while let Some(width) = entry_at(rest, places, lines)? {
        rest = &rest[width..];
        lines += 1;
    }
    Ok(lines)
}

// Question 2. Returns how many places there are.
fn head_of(day: &[u8]) -> Result<usize, Refusal>
    ensures { outcome result ≡ ask (places_whole day.now) 2 (passed (two day.now 1)) }
{
    if day.len() < 3 {
        return Err(Refusal::PlacesOutOfRange);
    }
    if day[0] != 1 {
        return Err(Refusal::PlacesOutOfRange);
    }
    let count = two_at(day, 1);
    if count == 0 {
        return Err(Refusal::PlacesOutOfRange);
    }
    if MOST_PLACES < count {
        return Err(Refusal::PlacesOutOfRange);
    }
    Ok(usize::from(count))
}

// All questions of a record.
pub fn read_record(day: &[u8]) -> Result<Counts, Refusal>
    ensures { outcome result ≡ mapped counts_of (read_record day.now) }
{
    if LONGEST < day.len() {
        return Err(Refusal::RecordTooLong);
    }
    let places = head_of(day)?;
    let lines = lines_from(day, places)?;
    Ok(Counts { places, lines })
}

// ---- going over the lines

// Line i of a record that passes, which begins at byte `at`. Whoever goes over a record does it by this or by `line_beside`, from
// `FIRST_LINE` on.
pub fn pass_line(day: &[u8], i: usize, at: usize) -> Met
    requires { (i < length (lines_of day.now)) × (at ≡ start_of (lines_of day.now) i) }
    ensures line { (written_shown result.written ≡ line_at (lines_of day.now) i) × (result.written.line.sail < 16777216) }
    ensures next { result.next ≡ start_of (lines_of day.now) (suc i) }
{
    let timed = day[at] == TIMED;
    let written = written_of(&day[at..], timed);
    let next = at + width_of(timed);
    Met { written, next }
}

// ---- a line of the record beside another

// From, kind and class of a line, its bytes 1 to 4, as one number.
fn head_word(l: Line) -> u32
    ensures { result ≡ head_word (line_shown l) }
{
    u32::from(l.from) * 65536 + (u32::from(l.kind) * 256 + u32::from(l.class))
}

// The sail number's two low bytes and the place that a line leads to, its bytes 6 to 9, as one number.
fn tail_word(l: Line) -> u32
    ensures { result ≡ tail_word (line_shown l) }
{
    l.sail % 65536 * 65536 + u32::from(l.to)
}

// Are the operands of the line whose bytes s begins with, but for its time, those of l? Two words of four bytes and the byte between them are
// compared, first the word in which most lines differ.
fn same_operands(s: &[u8], l: Line) -> bool
    requires { 10 ≤ length s.now }
    ensures { result ≡ same_line (line_shown l) (untimed (line_of s.now)) }
{
    if four_at(s, 6) != tail_word(l) {
        return false;
    }
    if four_at(s, 1) != head_word(l) {
        return false;
    }
    u32::from(s[5]) == l.sail / 65536
}

// Is the line whose bytes s begins with, timed or not, the line w? Timed and untimed lines go different ways, so that a loop over lines does not
// wait for a line's command to know where the next one begins.
fn same_line(s: &[u8], timed: bool, w: Written) -> bool
    requires { (timed ≡ eqb (byte s.now 0) 3) × (width_shown timed ≤ length s.now) }
    ensures { result ≡ same_line (written_shown w) (line_of s.now) }
{
    if timed {
        let Some(time) = w.time else {
            return false;
        };
        if four_at(s, 10) != time {
            return false;
        }
        return same_operands(s, w.line);
    }
    if w.time.is_some() {
        return false;
    }
    same_operands(s, w.line)
}

// Line i of a record that passes, which begins at byte `at`, beside the line w.
pub fn line_beside(day: &[u8], i: usize, at: usize, w: Written) -> Beside
    requires { (i < length (lines_of day.now)) × (at ≡ start_of (lines_of day.now) i) }
    ensures same { result.same ≡ same_line (written_shown w) (line_at (lines_of day.now) i) }
    ensures next { result.next ≡ start_of (lines_of day.now) (suc i) }
{
    let has_time = day[at] == TIMED;
    let same = same_line(&day[at..], has_time, w);
    let next = at + width_of(has_time);
    Beside { same, next }
}

// ---- reading lines back

// Line i of a record that passes.
fn line_at(day: &[u8], i: usize) -> Written
    requires { i < length (lines_of day.now) }
    ensures { written_shown result ≡ line_at (lines_of day.now) i }
{
    let mut at = FIRST_LINE;
    for k in 0..i {
        at = pass_line(day, k, at).next;
    }
    pass_line(day, i, at).written
}

// Reads line i back.
pub fn read_line(day: &[u8], i: u16) -> Result<Written, Refusal>
    ensures { line_reply result ≡ told (read_of day.now i) }
{
    let counts = read_record(day)?;
    let n = usize::from(i);
    if counts.lines <= n {
        return Err(Refusal::LineNotThere);
    }
    Ok(line_at(day, n))
}
