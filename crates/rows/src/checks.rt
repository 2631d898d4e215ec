// Rows about the checker: document 01's, and requests at the edge of each question. Each row prints its name, the reply, and how many
// words of the work area are then 7, as they were lent, and how many are 0.
use crate::work_area::WorkArea;
use crate::{file, print};
use arrayvec::ArrayVec;
use refusals::Refusal;
use std::fmt;

#[derive(Drop)]
struct Said(Result<bool, Refusal>);

impl fmt::Display for Said {
    fn fmt<W: fmt::Write>(&self, f: &mut fmt::Formatter<W>) -> fmt::Result {
        match self.0 {
            Ok(true) => write!(f, "yes"),
            Ok(false) => write!(f, "no"),
            Err(refusal) => write!(f, "{refusal}"),
        }
    }
}

// The line numbers in a field, two bytes each; none where they are more than 16.
fn entries(bytes: &[u8]) -> ArrayVec<u16, 16> {
    let (pairs, _) = bytes.as_chunks();
    let mut list = ArrayVec::new();
    if list
        .extend(pairs.iter().map(|pair| u16::from_be_bytes(*pair)))
        .is_err()
    {
        list.clear();
    }
    list
}

// A row: its name, the record, the pattern, the two places, the chain, and how many words are lent of the area.
fn asked(r: &[u8], area: &mut WorkArea) -> Result<bool, Refusal> {
    let chain = entries(file::field(r, 5));
    checker::check_chain(
        file::field(r, 1),
        file::field(r, 2),
        file::short(r, 3),
        file::short(r, 4),
        chain.as_slice(),
        area.words(file::long(r, 6)),
    )
}

pub fn row(rt: &impl Print, r: &[u8]) {
    let mut area = WorkArea([7; 16384]);
    print::bytes(rt, file::field(r, 0));
    let said = Said(asked(r, &mut area));
    print::line(rt, format_args!(": {said}, {area}"));
}
