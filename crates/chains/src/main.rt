// The small program: a question in two files, and its answer as one line of text.
// The file day.rec has the record; ask.pat has the two places, in two bytes each, and then the pattern.
#![tactic(auto)]

ghost use Rattle.std.specs.Prelude.{◌+◌, ◌*◌, ◌≤◌, length};
ghost use Rattle.arrayvec.specs.ArrayString.{array_string_len};
ghost use Rattle.finder.specs.Promise.{find_reply};
ghost use Rattle.finder.specs.Demand.{Bounds};

use arrayvec::{ArrayString, ArrayVec};
use itoa::{Buffer, Integer};
use refusals::OutputError;
use std::fmt::{Display, Write as _};
use std::io::{ErrorKind, Read};
use std::rt::Files;
use std::{fs, io};

// ---- the line

// How many bytes a line can have. The longest has 12,316: `found `, a count of at most 20 digits, a colon, 2,048 numbers of at most 5
// digits, each after a space, and its end.
const CAPACITY: usize = 16384;

type Line = ArrayString<CAPACITY>;

// Adds a number's decimal digits to the line.
fn push_number<I: Integer>(line: &mut Line, n: I)
    requires { array_string_len line.old + I.MAX_STR_LEN ≤ CAPACITY }
    ensures { array_string_len line.new ≤ array_string_len line.old + I.MAX_STR_LEN }
{
    let mut digits = Buffer::new();
    line.push_str(digits.format(n));
}

// Adds one line number after a space.
fn push_entry(line: &mut Line, n: u16)
    requires { array_string_len line.old + 6 ≤ CAPACITY }
    ensures { array_string_len line.new ≤ array_string_len line.old + 6 }
{
    line.push_str(" ");
    push_number(line, n);
}

// Adds the line numbers of a chain, each after a space.
fn push_chain(line: &mut Line, chain: &[u16])
    requires { array_string_len line.old + 6 * length chain.now ≤ CAPACITY }
    ensures { array_string_len line.new ≤ array_string_len line.old + 6 * length chain.now }
{
    for n in chain {
        push_entry(line, *n);
    }
}

// What is said of a chain that was found: how many lines it has, and their numbers.
fn found(line: &mut Line, chain: &[u16])
    requires { array_string_len line.old + 27 + 6 * length chain.now ≤ CAPACITY }
    ensures { array_string_len line.new ≤ array_string_len line.old + 27 + 6 * length chain.now }
{
    line.push_str("found ");
    push_number(line, chain.len());
    line.push_str(":");
    push_chain(line, chain);
}

// What is said of a refusal: the question's number alone.
fn refused(line: &mut Line, number: u8)
    requires { array_string_len line.old + 11 ≤ CAPACITY }
    ensures { array_string_len line.new ≤ array_string_len line.old + 11 }
{
    line.push_str("refused ");
    push_number(line, number);
}

// What is said of a reply of the finder, the output being as the finder left it.
fn render(line: &mut Line, reply: Result<Option<usize>, OutputError>, out: &[u16])
    requires room { array_string_len line.old + 27 + 6 * length out.now ≤ CAPACITY }
    requires bounds { Bounds (length out.now) (find_reply reply) }
    ensures { array_string_len line.new ≤ array_string_len line.old + 27 + 6 * length out.now }
{
    match reply {
        Ok(Some(n)) => found(line, &out[..n]),
        Ok(None) => line.push_str("none"),
        Err(e) => refused(line, e.number()),
    }
}

// ---- the question

// What is said of a request.
fn asked(line: &mut Line, day: &[u8], pattern: &[u8], from: u16, to: u16)
    requires { array_string_len line.old + 12315 ≤ CAPACITY }
    ensures { array_string_len line.new ≤ array_string_len line.old + 12315 }
{
    let mut work = [0u32; 16384];
    let mut out = [0u16; 2048];
    let reply = finder::find(day, pattern, from, to, &mut work, &mut out);
    render(line, reply, &out);
}

// What is said of a record and the bytes of a question, of which the first four are the places.
fn answer(line: &mut Line, day: &[u8], ask: &[u8])
    requires { array_string_len line.old + 12315 ≤ CAPACITY }
    ensures { array_string_len line.new ≤ array_string_len line.old + 12315 }
{
    let [a, b, c, d, pattern @ ..] = ask else {
        line.push_str("no question");
        return;
    };
    let from = u16::from_be_bytes([*a, *b]);
    let to = u16::from_be_bytes([*c, *d]);
    asked(line, day, pattern, from, to);
}

// ---- the files

// Says on standard error what failed, and after a colon what the system says of it: the error's words, without the number that std puts
// after them in parentheses.
fn fail(rt: &impl Eprint, what: impl Display + Drop, error: &io::Error) {
    let mut text = ArrayString::<256>::new();
    let _ = write!(text, "{error}");
    let said = text.as_str();
    let words = said
        .split_once(" (os error ")
        .map_or(said, |(words, _)| words);
    let _ = eprintln!(rt; "{what}: {words}");
}

// Puts the first bytes of a file into a vector, as many as it has room for: none of a file that is missing. The vector is lent, since one that is
// returned is moved, and each place that it is moved to has 64 KiB of the stack.
fn first_bytes<const N: usize>(
    rt: &impl Files,
    name: &str,
    bytes: &mut ArrayVec<u8, N>,
) -> io::Result<u64> {
    match fs::open(rt, name) {
        Ok(file) => io::copy(&mut file.take(N as u64), bytes),
        Err(e) if e.kind() == ErrorKind::NotFound => Ok(0),
        Err(e) => Err(e),
    }
}

// Puts the first bytes of a file into a vector, and says whether it can be read; where it cannot, standard error has a word on it.
fn read_file<const N: usize, R: Files + Eprint>(
    rt: &R,
    name: &str,
    bytes: &mut ArrayVec<u8, N>,
) -> bool {
    match first_bytes(rt, name, bytes) {
        Ok(_) => true,
        Err(e) => {
            fail(rt, format_args!("chains: {name} cannot be read"), &e);
            false
        }
    }
}

// Prints the line for a record and a question, in one write, or says that it cannot be written.
fn print_answer<R: Print + Eprint>(rt: &R, day: &[u8], ask: &[u8]) {
    let mut line = Line::new();
    answer(&mut line, day, ask);
    line.push_str("\n");
    if let Err(e) = Print::write_all(rt, line.as_str().as_bytes()) {
        fail(rt, "chains: the answer cannot be written", &e);
    }
}

// Reads the question, asks, and prints the answer. A longer file is cut, which changes no answer: of a pattern the reader asks for the
// bytes of at most 63 commands, 3 each at most, and for the byte after these, for question 8, 9 or 14. It is in the first 190, so the
// reader finds the same bytes, and the same lack of a byte, in a pattern that is cut at 4,092 bytes as in the whole one.
fn ask_file<R: Files + Print + Eprint>(rt: &R, day: &[u8]) {
    let mut ask = ArrayVec::<u8, 4096>::new();
    if read_file(rt, "ask.pat", &mut ask) {
        print_answer(rt, day, ask.as_slice());
    }
}

// Reads day.rec and ask.pat in the working folder, asks, and prints the answer, but no answer where one of them is there and cannot be
// read. A longer record is cut, which changes no answer: at 65,536 bytes it is longer than 57,348, as the whole one is, and both are
// refused at question 1.
fn main(rt: HostRuntime) {
    let mut day = ArrayVec::<u8, 65536>::new();
    if read_file(&rt, "day.rec", &mut day) {
        ask_file(&rt, day.as_slice());
    }
}
