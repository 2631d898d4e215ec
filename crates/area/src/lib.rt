// The words of the lent work area: a word of a stretch, a stretch cleared, and the search that a pair of stretches holds. Each function that
// changes the pair promises a `Step`: what the pair holds afterwards, and that every other word is as it was. Between the calls of a search in steps
// the area is the caller's: `push_if_new` and `waiting_checked` keep to the pair whatever words stand in it.
#![tactic(auto)]

ghost use Rattle.std.specs.Prelude.{◌≡◌, suc, ◌+◌, ◌≤◌, ◌<◌, length, get_or, set, replicate};
ghost use Rattle.graph.specs.Table.{push};
ghost use Rattle.area.specs.Area.{patch, Good, found, Ready, Room, StepAny};

// ---- words

// Word `i` of a part becomes `v`.
fn put(part: &mut [u32], i: usize, v: u32)
    requires { i < length part.old }
    ensures { part.new ≡ set part.old i v }
{
    part[i] = v;
}

// Word `i` of the stretch of `size` words from word `base` on becomes `v`. The stretch is passed on as a part of the area, so that nothing
// outside it can be written.
pub fn write(work: &mut [u32], base: usize, size: usize, i: usize, v: u32)
    requires { (base + size ≤ length work.old) × (i < size) }
    ensures { work.new ≡ set work.old (base + i) v }
{
    put(&mut work[base..base + size], i, v);
}

// All words of the stretch of `size` words from word `base` on become 0.
#[tactic(auto, unfolding(crate::specs::Area::patch))]
pub fn clear_stretch(work: &mut [u32], base: usize, size: usize)
    requires { base + size ≤ length work.old }
    ensures { work.new ≡ patch base size (replicate size 0) work.old }
{
    work[base..base + size].fill(0);
}

// Word `i` of the area.
pub fn word(work: &[u32], i: usize) -> u32
    requires { i < length work.now }
    ensures { result ≡ get_or work.now i 0 }
{
    work[i]
}

// The state `s` gets the word `d` and comes into the queue, unless it has a word. Returns how many are in the queue then. In a search, a state
// without a word leaves room in the queue; whatever words stand there, nothing is written past its end.
pub fn push_if_new(
    work: &mut [u32],
    base: usize,
    size: usize,
    d: u32,
    s: usize,
    tail: usize,
) -> usize
    requires room { Room base size tail work.old }
    requires s_lt_size { (s < size) × (0 < d) × (d ≤ suc tail) }
    ensures { StepAny base size (push d s) tail work.old result work.new }
{
    let i = base + s;
    if work[i] != 0 {
        return tail;
    }
    if size <= tail {
        return tail;
    }
    write(work, base, size, s, d);
    write(work, base + size, size, tail, s as u32);
    tail + 1
}

// The state at place `i` of the queue.
pub fn waiting(work: &[u32], base: usize, size: usize, tail: usize, i: usize) -> usize
    requires ready { Ready base size tail work.now }
    requires i_lt_tail { i < tail }
    ensures { (result ≡ get_or (found base size tail work.now).queue i 0) × (result < size) }
{
    let k = base + size + i;
    work[k] as usize
}

// The same, whatever words stand in the pair: the state 0 where the word there is no state.
pub fn waiting_checked(work: &[u32], base: usize, size: usize, tail: usize, i: usize) -> usize
    requires room { Room base size tail work.now }
    requires i_lt_tail { i < tail }
    ensures { (result < size) × (Good size (found base size tail work.now) → result ≡ get_or (found base size tail work.now).queue i 0) }
{
    let s = word(work, base + size + i) as usize;
    if s < size { s } else { 0 }
}

// The word of the state `s`.
pub fn dist_at(work: &[u32], base: usize, size: usize, tail: usize, s: usize) -> u32
    requires room { Room base size tail work.now }
    requires s_lt_size { s < size }
    ensures { (result ≡ get_or (found base size tail work.now).dist s 0) × (Good size (found base size tail work.now) → result ≤ tail) }
{
    let k = base + s;
    work[k]
}
