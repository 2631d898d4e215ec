// Rows about patterns: document 01's, and many others. Each row prints its text, then commands, unfolded count and keeps, or the refusal's
// two numbers.
use crate::{file, print};
use pattern::Counts;
use refusals::Refusal;

fn reply(rt: &impl Print, counts: Result<Counts, Refusal>) {
    match counts {
        Ok(
            Counts {
                commands,
                unfolded,
                keeps,
            },
        ) => print::line(rt, format_args!("pattern {commands} {unfolded} {keeps}")),
        Err(refusal) => print::line(rt, format_args!("{refusal} 0")),
    }
}

// The number of the refusal, or 0.
fn number_of(counts: Result<Counts, Refusal>) -> u8 {
    counts.map_or_else(|refusal| refusal.number(), |_| 0)
}

// Which slots have a boat from outside: 1 for each such slot.
fn given(r: &[u8]) -> [u8; 4] {
    [3, 4, 5, 6].map(|k| file::byte(r, k))
}

// A row: what is done, a text, the pattern's bytes, and for slots from outside four bytes more. Done is: 0 the text alone, 1 the
// reply, 2 the reply with slots from outside, and else the number of the refusal alone, which ends no line.
pub fn row(rt: &impl Print, r: &[u8]) {
    print::bytes(rt, file::field(r, 1));
    let bytes = file::field(r, 2);
    match file::byte(r, 0) {
        0 => {}
        1 => reply(rt, pattern::read_pattern(bytes)),
        2 => reply(rt, pattern::read_given(bytes, given(r))),
        _ => print::part(rt, number_of(pattern::read_pattern(bytes))),
    }
}
