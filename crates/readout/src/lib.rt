// The chain that the marks of a finished sweep say: the line into each level is the least mark of its states, less one. One pass over the states
// found notes the least mark of every level in the output, and a second makes lines of marks. Whatever words the area has, nothing but the output is
// written; where a search stands in it, the output's front is the chain.
#![tactic(auto)]

ghost use Rattle.std.specs.Prelude.{◌≡◌, ◌++◌, ◌+◌, ◌*◌, ◌-◌, ◌≤◌, ◌<◌, length, take, drop};
ghost use Rattle.graph.specs.PhaseTwo.{lesser_word};
ghost use Rattle.states.specs.Pairs.{RoomBack, GoodBack};
ghost use Rattle.readout.specs.Readout.{note_turn, noted, lines_of, chain_of};

use request::Plan;

// The lesser of two marks, where 0 stands for none.
#[tactic(auto, unfolding(graph::specs::PhaseTwo::lesser_word))]
fn lesser(v: u16, w: u16) -> u16
    ensures { result ≡ lesser_word v w }
{
    match (v, w) {
        (0, x) | (x, 0) => x,
        _ => v.min(w),
    }
}

// The state at place `j` of the queue: its mark is noted for its level, if that is below `far`.
fn note_mark(work: &[u32], plan: Plan, tail: usize, far: usize, j: usize, out: &mut [u16])
    requires room_back { RoomBack plan tail work.now × (plan.base + 4 * plan.size ≤ length work.now) }
    requires j_lt_tail { (j < tail) × (far - 1 ≤ length out.old) }
    ensures { GoodBack plan tail work.now → out.new ≡ note_turn plan tail far work.now j out.old }
{
    let s = area::waiting_checked(work, plan.base, plan.size, tail, j);
    let w = area::dist_at(work, plan.base, plan.size, tail, s) as usize;
    if w == 0 {
        return;
    }
    if far <= w {
        return;
    }
    let mark = (area::word(work, plan.base + 3 * plan.size + s) % 65536) as u16;
    let i = far - 1 - w;
    out[i] = lesser(out[i], mark);
}

// All states found, one after the other.
fn note_marks(work: &[u32], plan: Plan, tail: usize, far: usize, out: &mut [u16])
    requires room_back { RoomBack plan tail work.now × (plan.base + 4 * plan.size ≤ length work.now) }
    requires far_in_bounds { far - 1 ≤ length out.old }
    ensures { GoodBack plan tail work.now → out.new ≡ noted plan tail far work.now out.old }
{
    for j in 0..tail {
        note_mark(work, plan, tail, far, j, out);
    }
}

// The first `n` entries, which are marks, become lines.
fn lines_of(out: &mut [u16], n: usize)
    requires { n ≤ length out.old }
    ensures { out.new ≡ lines_of (take n out.old) ++ drop n out.old }
{
    for mark in &mut out[..n] {
        *mark = mark.saturating_sub(1);
    }
}

// The chain by the marks, from the level with the word `far` down, into the front of the output.
pub fn chain_out(work: &[u32], plan: Plan, tail: usize, far: usize, out: &mut [u16])
    requires room_back { RoomBack plan tail work.now × (plan.base + 4 * plan.size ≤ length work.now) }
    requires far_in_bounds { far - 1 ≤ length out.old }
    ensures { GoodBack plan tail work.now → out.new ≡ chain_of plan tail far work.now ++ drop (far - 1) out.old }
{
    let n = far.saturating_sub(1);
    out[..n].fill(0);
    note_marks(work, plan, tail, far, out);
    lines_of(out, n);
}
