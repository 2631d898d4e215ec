// Rows about records: document 01's, records at every question's edge, and round trips of made lines. Each row prints its name and the
// reply.
use crate::file::{self, Fields};
use crate::print::{self, Each};
use crate::work_area::lent;
use record::{Line, Written};
use refusals::Refusal;
use std::fmt;

// ---- what is written

fn wrote(rt: &impl Print, reply: Result<usize, Refusal>) {
    match reply {
        Ok(n) => print::line(rt, format_args!("length {n}")),
        Err(refusal) => print::line(rt, refusal),
    }
}

// The values of a line, each after a space.
#[derive(Drop)]
struct Values(Line);

impl fmt::Display for Values {
    fn fmt<W: fmt::Write>(&self, f: &mut fmt::Formatter<W>) -> fmt::Result {
        let Line {
            from,
            kind,
            class,
            sail,
            to,
        } = self.0;
        write!(f, " {from} {kind} {class} {sail} {to}")
    }
}

// A line read back: a record that passes and has no line i says 18.
fn line(rt: &impl Print, day: &[u8], i: u16) {
    match record::read_line(day, i) {
        Ok(Written { line, time: None }) => print::line(rt, format_args!("line{}", Values(line))),
        Ok(
            Written {
                line,
                time: Some(time),
            },
        ) => print::line(rt, format_args!("timed line{} {time}", Values(line))),
        Err(refusal) => print::line(rt, refusal),
    }
}

// ---- adding

// A line without a time, in ten bytes: from, kind, class, four bytes for the sail number, to.
fn made(bytes: &[u8]) -> Written {
    let [a, b, kind, class, c, d, e, f, g, h] = file::padded::<10>(bytes);
    let line = Line {
        from: u16::from_be_bytes([a, b]),
        kind,
        class,
        sail: u32::from_be_bytes([c, d, e, f]),
        to: u16::from_be_bytes([g, h]),
    };
    Written { line, time: None }
}

// The length after adding a line, or 0.
fn longer(buf: &mut [u8], len: usize, bytes: &[u8]) -> usize {
    writing::add_line(buf, len, made(bytes)).unwrap_or(0)
}

// The lines in a list of fields, added one after the other; the length then.
fn grown(buf: &mut [u8], start: usize, lines: &[u8]) -> usize {
    Fields(lines).fold(start, |len, line| longer(buf, len, line))
}

// ---- rows

// A row about one buffer, which stays from row to row: what is done, a text, how many bytes of the buffer are lent, a number, bytes.
pub fn row(rt: &impl Print, r: &[u8], buf: &mut [u8]) {
    print::bytes(rt, file::field(r, 1));
    let buf = lent(buf, file::long(r, 2));
    match file::byte(r, 0) {
        0 => line(rt, file::field(r, 4), file::short(r, 3)),
        1 => line(rt, buf, file::short(r, 3)),
        2 => wrote(rt, writing::begin_record(buf, file::short(r, 3))),
        3 => wrote(
            rt,
            writing::add_line(buf, file::long(r, 3), made(file::field(r, 4))),
        ),
        _ => about_bytes(rt, r, buf),
    }
}

// Every byte from a place on is v.
fn fill(buf: &mut [u8], start: usize, v: u8) {
    if let Some(rest) = buf.get_mut(start..) {
        rest.fill(v);
    }
}

// A row about the lent bytes themselves, or about many lines.
fn about_bytes(rt: &impl Print, r: &[u8], buf: &mut [u8]) {
    let start = file::long(r, 3);
    match file::byte(r, 0) {
        4 => print::line(rt, Each(buf)),
        5 => fill(buf, start, file::byte(r, 4)),
        6 => print::line(rt, grown(buf, start, file::field(r, 4))),
        _ => print::line(rt, buf.iter().skip(start).filter(|b| **b == 9).count()),
    }
}
