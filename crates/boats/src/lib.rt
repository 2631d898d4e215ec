// The different boats of a day's record: counted, and numbered from 1 in order of first appearance.
#![tactic(auto)]

ghost use Rattle.std.specs.Prelude.{◌≡◌, suc, ◌<◌, ◌≤◌, length, take};
ghost use Rattle.meaning.specs.Count.{reads, count_of};
ghost use Rattle.meaning.specs.Outcome.{told};
ghost use Rattle.meaning.specs.Record.{boats};
ghost use Rattle.boats.specs.Boats.{BoatIs};
ghost use Rattle.boats.specs.Codes.{codes};
ghost use Rattle.boats.specs.Counting.{NoneBefore, FirstAt, Counted};
ghost use Rattle.boats.specs.Promise.{count_reply};
ghost use Rattle.record.specs.Promise.{line_shown};
ghost use Rattle.record.specs.Whole.{lines_of};

use record::Line;
use refusals::Refusal;

// How many different boats there are, and how many earlier lines were read to tell.
#[derive(Clone, Copy, Debug, PartialEq, Eq)]
pub struct BoatCount {
    pub boats: usize,
    pub reads: usize,
}

// The lines gone over so far: the byte at which the next one begins, the different boats, and the earlier lines read.
#[derive(Clone, Copy, Debug, PartialEq, Eq)]
pub struct Tally {
    pub at: usize,
    pub boats: usize,
    pub reads: usize,
}

// A boat as one number is its class and its sail number, which is below this.
const SAILS: u32 = 16777216;

// The boat of a line as one number.
pub fn boat_of(l: Line) -> u32
    requires { l.sail < 16777216 }
    ensures { BoatIs (line_shown l).boat result }
{
    u32::from(l.class) * SAILS + l.sail
}

// The first line with a boat, by the boats of the lines as they were noted, where none before line `start` has it; how many lines there are
// where none has it at all.
fn first_from(noted: &[u32], start: usize, boat: u32) -> usize
    requires { NoneBefore noted.now boat start }
    ensures { FirstAt noted.now boat result }
{
    for j in start..noted.len() {
        if noted[j] == boat {
            return j;
        }
    }
    noted.len()
}

// The same from line 0 on. The lines are read one by one and none after the first with the boat; a turn of the loop has four of them, which
// takes less time than a turn for each. The turns are counted: of a loop that asks each time whether four lines are left, one jump can come
// to stand across 32 bytes of code, and it takes up to twice as long then.
fn first_same(noted: &[u32], boat: u32) -> usize
    ensures { FirstAt noted.now boat result }
{
    let turns = noted.len() / 4;
    for turn in 0..turns {
        let j = 4 * turn;
        if noted[j] == boat {
            return j;
        }
        let k = j + 1;
        if noted[k] == boat {
            return k;
        }
        let l = k + 1;
        if noted[l] == boat {
            return l;
        }
        let m = l + 1;
        if noted[m] == boat {
            return m;
        }
    }
    first_from(noted, 4 * turns, boat)
}

// Line i is gone over: its boat is noted, and numbered as the first line with it, else by the next number.
fn number_line(day: &[u8], i: usize, t: Tally, noted: &mut [u32], numbers: &mut [u16]) -> Tally
    requires line_in_bounds { (i < length (lines_of day.now)) × (i < length noted.old) × (i < length numbers.old) }
    requires counted { Counted (lines_of day.now) i t noted.old numbers.old }
    ensures { Counted (lines_of day.now) (suc i) result noted.new numbers.new }
{
    let met = record::pass_line(day, i, t.at);
    let boat = boat_of(met.written.line);
    let first = first_same(&noted[..i], boat);
    noted[i] = boat;
    let at = met.next;
    if first < i {
        let number = numbers[first];
        numbers[i] = number;
        let boats = t.boats;
        let read = first + 1;
        let reads = t.reads + read;
        return Tally { at, boats, reads };
    }
    let boats = t.boats + 1;
    numbers[i] = boats as u16;
    let reads = t.reads + i;
    Tally { at, boats, reads }
}

// Each line's boat number, and the count: for each line the earlier lines are read from line 0 on, up to the first with its boat.
pub fn number_boats(day: &[u8], lines: usize, numbers: &mut [u16; 4096]) -> BoatCount
    requires { lines ≡ length (lines_of day.now) }
    ensures count { (result.boats ≡ length (boats (lines_of day.now))) × (result.boats ≤ 4096) × (result.reads ≡ reads (lines_of day.now)) }
    ensures numbered { take lines numbers.new ≡ codes (lines_of day.now) }
{
    let mut noted: [u32; 4096] = [0; 4096];
    let mut t = Tally {
        at: record::FIRST_LINE,
        boats: 0,
        reads: 0,
    };
    for i in 0..lines {
        t = number_line(day, i, t, &mut noted, numbers);
    }
    BoatCount {
        boats: t.boats,
        reads: t.reads,
    }
}

// Counts the different boats of a record: questions 1 to 7.
pub fn count_boats(day: &[u8]) -> Result<BoatCount, Refusal>
    ensures { count_reply result ≡ told (count_of day.now) }
{
    let counts = record::read_record(day)?;
    let mut numbers: [u16; 4096] = [0; 4096];
    Ok(number_boats(day, counts.lines, &mut numbers))
}
