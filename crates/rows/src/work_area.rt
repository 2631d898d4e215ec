// The work area that a row lends, and what a reply leaves of it.
ghost use Rattle.std.specs.Prelude.{◌≡◌, length, min};

use std::fmt;

// 16,384 words, which are 7 before a reply. A row makes them where they stand: a function that returned them would move 64 KiB.
#[derive(Drop)]
pub struct WorkArea(pub [u32; 16384]);

impl WorkArea {
    // So many of its words, or all where those are fewer.
    pub fn words(&mut self, n: usize) -> &mut [u32]
        ensures { length result.now ≡ min n 16384 }
    {
        lent(&mut self.0, n)
    }

    // How many words are v. By a `for`, which is compiled to a sum; `filter` and `count` ask of each word by a jump, in three times the time.
    fn count(&self, v: u32) -> usize {
        let mut n: usize = 0;
        for word in &self.0 {
            n = n.wrapping_add(usize::from(*word == v));
        }
        n
    }
}

// How many words are still 7, and how many are 0.
impl fmt::Display for WorkArea {
    fn fmt<W: fmt::Write>(&self, f: &mut fmt::Formatter<W>) -> fmt::Result {
        write!(f, "{} kept, {} zero", self.count(7), self.count(0))
    }
}

// So many of the items, or all where those are fewer.
pub fn lent<T>(items: &mut [T], n: usize) -> &mut [T]
    ensures { length result.now ≡ min n (length items.old) }
{
    let n = n.min(items.len());
    &mut items[..n]
}
