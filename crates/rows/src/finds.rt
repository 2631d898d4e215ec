// Rows about the finder: each is a request. A row prints its name, the reply with the chain, how many words of the work area are then 7,
// as they were lent, and how many are 0, and how many entries of the output are 65,535, as they were lent.
use crate::file;
use crate::print::{self, Each};
use crate::work_area::{WorkArea, lent};
use refusals::OutputError;
use std::fmt;

// A reply, and the output that it left.
#[derive(Drop)]
struct Said<'a> {
    reply: Result<Option<usize>, OutputError>,
    out: &'a [u16],
}

impl fmt::Display for Said<'_> {
    fn fmt<W: fmt::Write>(&self, f: &mut fmt::Formatter<W>) -> fmt::Result {
        match self.reply {
            Ok(Some(n)) => {
                let chain = self.out.get(..n).unwrap_or(self.out);
                write!(f, "found {n}:{}", Each(chain))
            }
            Ok(None) => write!(f, "none"),
            Err(refusal) => write!(f, "{refusal}"),
        }
    }
}

// A row: its name, the record, the pattern, the two places, how many words and how many entries are lent.
fn asked(r: &[u8], area: &mut WorkArea, out: &mut [u16]) -> Result<Option<usize>, OutputError> {
    finder::find(
        file::field(r, 1),
        file::field(r, 2),
        file::short(r, 3),
        file::short(r, 4),
        area.words(file::long(r, 5)),
        lent(out, file::long(r, 6)),
    )
}

pub fn row(rt: &impl Print, r: &[u8]) {
    let mut area = WorkArea([7; 16384]);
    let mut out = [65535u16; 2048];
    print::bytes(rt, file::field(r, 0));
    let reply = asked(r, &mut area, &mut out);
    let said = Said { reply, out: &out };
    let free = out.iter().filter(|entry| **entry == 65535).count();
    print::line(rt, format_args!(": {said}, {area}, {free} free"));
}
