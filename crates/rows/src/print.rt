// Printing: what every table needs. What cannot be printed is left out.
use std::fmt::{self, Display};

// Bytes that need not be text.
pub fn bytes(rt: &impl Print, bytes: &[u8]) {
    let _ = rt.write_all(bytes);
}

// A value.
pub fn part(rt: &impl Print, value: impl Display + Drop) {
    let _ = rt.print(value);
}

// A value, and the end of a line.
pub fn line(rt: &impl Print, value: impl Display + Drop) {
    let _ = rt.println(value);
}

// Numbers, each after a space.
#[derive(Drop)]
pub struct Each<'a, N>(pub &'a [N]);

impl<N: Display> Display for Each<'_, N> {
    fn fmt<W: fmt::Write>(&self, f: &mut fmt::Formatter<W>) -> fmt::Result {
        for n in self.0 {
            write!(f, " {n}")?;
        }
        Ok(())
    }
}
