// Writing the day's record: beginning one, and adding a line, untimed or timed.
#![tactic(auto)]

ghost use Rattle.std.specs.Prelude.{◌≡◌, [], ◌∷◌, ◌++◌, ◌+◌, ◌<◌, ◌≤◌, length};
ghost use Rattle.meaning.specs.Outcome.{told};
ghost use Rattle.meaning.specs.Record.{width, bytes_of};
ghost use Rattle.meaning.specs.Writing.{written, begin_of, begin_after, is_new, ask_new, add_of, add_after};
ghost use Rattle.writing.specs.Promise.{write_reply};
ghost use Rattle.record.specs.Promise.{line_shown, timed_shown, written_shown};
ghost use Rattle.record.specs.Whole.{lines_of};
ghost use Rattle.refusals.specs.Refusal.{outcome};

use record::{Line, Written};
use refusals::Refusal;

// The limits of questions 2, 21 and 22.
const MOST_PLACES: u16 = 1024;

const SAILS: u32 = 16777216;

const MOST_LINES: usize = 4096;

// The ten bytes of an untimed line and an end byte after them.
fn line_bytes(l: Line) -> [u8; 11]
    requires { l.sail < 16777216 }
    ensures { result ≡ bytes_of (line_shown l) ++ (0 ∷ []) }
{
    [
        2,
        (l.from / 256) as u8,
        (l.from % 256) as u8,
        l.kind,
        l.class,
        (l.sail / 65536) as u8,
        (l.sail / 256 % 256) as u8,
        (l.sail % 256) as u8,
        (l.to / 256) as u8,
        (l.to % 256) as u8,
        0,
    ]
}

// The fourteen bytes of a timed line and an end byte after them.
fn timed_bytes(l: Line, time: u32) -> [u8; 15]
    requires { l.sail < 16777216 }
    ensures { result ≡ bytes_of (timed_shown l time) ++ (0 ∷ []) }
{
    let b = line_bytes(l);
    [
        3,
        b[1],
        b[2],
        b[3],
        b[4],
        b[5],
        b[6],
        b[7],
        b[8],
        b[9],
        (time / 16777216) as u8,
        (time / 65536 % 256) as u8,
        (time / 256 % 256) as u8,
        (time % 256) as u8,
        0,
    ]
}

// Puts new bytes into a buffer from a place on.
fn write_at(buf: &mut [u8], at: usize, new: &[u8])
    requires { at + length new.now ≤ length buf.old }
    ensures { buf.new ≡ written at new.now buf.old }
{
    buf[at..at + new.len()].copy_from_slice(new);
}

// Puts a line's bytes and an end byte into a buffer from a place on.
fn write_line(buf: &mut [u8], at: usize, w: Written)
    requires { (w.line.sail < 16777216) × (at + width (written_shown w) + 1 ≤ length buf.old) }
    ensures { buf.new ≡ written at (bytes_of (written_shown w) ++ (0 ∷ [])) buf.old }
{
    match w.time {
        None => write_at(buf, at, &line_bytes(w.line)),
        Some(time) => write_at(buf, at, &timed_bytes(w.line, time)),
    }
}

// Begins a record of so many places, with no line. Returns its length.
pub fn begin_record(buf: &mut [u8], places: u16) -> Result<usize, Refusal>
    ensures reply { write_reply result ≡ told (begin_of buf.old places) }
    ensures buffer { buf.new ≡ begin_after buf.old places }
{
    if places == 0 {
        return Err(Refusal::PlacesOutOfRange);
    }
    if MOST_PLACES < places {
        return Err(Refusal::PlacesOutOfRange);
    }
    if buf.len() < 4 {
        return Err(Refusal::BufferTooSmall);
    }
    let new = [1, (places / 256) as u8, (places % 256) as u8, 0];
    write_at(buf, 0, &new);
    Ok(4)
}

// Is a line another than each of the so many lines of a record that passes? The first that is the same ends the loop.
pub fn is_new(day: &[u8], lines: usize, w: Written) -> bool
    requires { lines ≡ length (lines_of day.now) }
    ensures { result ≡ is_new (written_shown w) (lines_of day.now) }
{
    let mut at = record::FIRST_LINE;
    for i in 0..lines {
        let b = record::line_beside(day, i, at, w);
        if b.same {
            return false;
        }
        at = b.next;
    }
    true
}

// Questions 5, 6 and 28 of a new line, 21, 22 and 23, for a record of so many places and lines and len bytes in a buffer of room bytes. Returns
// the record's new length.
fn new_asked(
    places: usize,
    lines: usize,
    room: usize,
    len: usize,
    w: Written,
) -> Result<usize, Refusal>
    requires { len ≤ room }
    ensures { outcome result ≡ ask_new places lines room len (written_shown w) }
{
    let width = record::line_asked(w, places)?;
    if SAILS <= w.line.sail {
        return Err(Refusal::SailNumberTooLarge);
    }
    if MOST_LINES <= lines {
        return Err(Refusal::RecordFull);
    }
    if room - len < width {
        return Err(Refusal::BufferTooSmall);
    }
    Ok(len + width)
}

// All questions of adding a line to the record in the first len bytes of a buffer; nothing is written.
fn add_asked(buf: &[u8], len: usize, w: Written) -> Result<usize, Refusal>
    ensures { outcome result ≡ add_of buf.now len (written_shown w) }
{
    if buf.len() < len {
        return Err(Refusal::LengthBeyondBuffer);
    }
    let day = record::read_record(&buf[..len])?;
    new_asked(day.places, day.lines, buf.len(), len, w)
}

// Adds a line, timed or not, to the record in the first len bytes of a buffer. Returns the record's new length.
pub fn add_line(buf: &mut [u8], len: usize, w: Written) -> Result<usize, Refusal>
    ensures reply { write_reply result ≡ told (add_of buf.old len (written_shown w)) }
    ensures buffer { buf.new ≡ add_after buf.old len (written_shown w) }
{
    let longer = add_asked(buf, len, w)?;
    write_line(buf, len - 1, w);
    Ok(longer)
}
