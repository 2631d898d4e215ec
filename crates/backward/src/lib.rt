// Phase one: the distances of states to the goal, by expanding states backward, until none waits or a first state is met.
#![tactic(auto)]

ghost use Rattle.std.specs.Prelude.{◌≡◌, [], ◌∷◌, ◌<◌, length};
ghost use Rattle.request.specs.Layout.{Laid};
ghost use Rattle.search.specs.Loaded.{setting_at};
ghost use Rattle.graph.specs.Early.{met_by};
ghost use Rattle.graph.specs.PhaseTwo.{nearest_word};
ghost use Rattle.graph.specs.Table.{push};
ghost use Rattle.search.specs.Front.{state_in};
ghost use Rattle.states.specs.Pairs.{distances, ReadyBack, StepBack};
ghost use Rattle.forward.specs.Firsts.{first_states};
ghost use Rattle.expanding.specs.Backing.{Backing};
ghost use Rattle.backward.specs.Stopped.{opened, forgotten, seeded, StoppedAt, StoppedFrom};

use request::Plan;

// Is a first state met: is one as near as the state that waits first, whose word is `d`? All that are have their words when a
// distance begins, so it is asked only where `d` differs from `last`, the word of the state expanded before.
pub fn first_met(work: &[u32], plan: Plan, begin: u64, from: usize, d: u32, last: u32) -> bool
    requires laid { Laid plan (length work.now) }
    requires from_lt_places { from < plan.places }
    ensures { result ≡ met_by (nearest_word (distances plan work.now) (first_states plan begin from)) d last }
{
    if d == last {
        return false;
    }
    let near = forward::nearest(work, plan, begin, from);
    if near == 0 {
        return false;
    }
    near <= d
}

// Phase one from a queue with `tail` states in it: states are expanded until none waits or a first state is met. The first states
// are those at the place `from`, at the positions of the mask `begin`.
pub fn search_back(
    work: &mut [u32],
    plan: Plan,
    program: &[u64; 128],
    begin: u64,
    from: usize,
    tail: usize,
) -> usize
    requires ready_back { ReadyBack plan tail work.old }
    requires backing { Backing plan program.now work.old }
    requires from_lt_places { from < plan.places }
    ensures { StoppedAt opened (setting_at program.now plan work.old) plan (first_states plan begin from) tail work.old result work.new }
{
    let mut t = tail;
    let mut head = 0;
    let mut last = 0;
    // a `while`: the queue grows in the loop, so that its end is in no range's bound
    while head < t {
        let s = area::waiting(work, plan.base, plan.size, t, head);
        let d = area::dist_at(work, plan.base, plan.size, t, s);
        if first_met(work, plan, begin, from, d, last) {
            return t;
        }
        t = expanding::expand_state(work, plan, program, d + 1, s, t);
        head += 1;
        last = d;
    }
    t
}

// The same with no first state: until none waits. The mask 0 has no position, so that no first state is ever met.
pub fn run_out(work: &mut [u32], plan: Plan, program: &[u64; 128], tail: usize) -> usize
    requires ready_back { ReadyBack plan tail work.old }
    requires backing { Backing plan program.now work.old }
    ensures { StoppedAt opened (setting_at program.now plan work.old) plan [] tail work.old result work.new }
{
    search_back(work, plan, program, 0, 0, tail)
}

// ---- where it begins

// Nothing is found: no state has a distance.
pub fn forget(work: &mut [u32], plan: Plan)
    requires { Laid plan (length work.old) }
    ensures { StepBack plan (forgotten plan.size) 0 work.old 0 work.new }
{
    area::clear_stretch(work, plan.base, plan.size);
}

// The end position at the place `to` is a goal: it is found, at distance 0. Returns how many states are found then.
pub fn seed(work: &mut [u32], plan: Plan, to: usize, tail: usize) -> usize
    requires ready_back { ReadyBack plan tail work.old }
    requires laid { Laid plan (length work.old) × (to < plan.places) }
    ensures { StepBack plan (push 1 (state_in plan to plan.done 0)) tail work.old result work.new }
{
    let s = states::state_at(plan, to, plan.done, 0);
    area::push_if_new(work, plan.base, plan.size, 1, s, tail)
}

// Nothing but the goal at the place `to` is found.
fn seed_alone(work: &mut [u32], plan: Plan, to: usize) -> usize
    requires { Laid plan (length work.old) × (to < plan.places) }
    ensures { StepBack plan (seeded plan to) 0 work.old result work.new }
{
    forget(work, plan);
    seed(work, plan, to, 0)
}

// ---- from a goal

// Phase one: the distances of states to the end position at the place `to`, until none waits or a first state is met. Returns how
// many states have one.
pub fn distances(
    work: &mut [u32],
    plan: Plan,
    program: &[u64; 128],
    begin: u64,
    from: usize,
    to: usize,
) -> usize
    requires backing { Backing plan program.now work.old }
    requires from_lt_places { (from < plan.places) × (to < plan.places) }
    ensures { StoppedFrom (to ∷ []) (setting_at program.now plan work.old) plan (first_states plan begin from) 0 work.old result work.new }
{
    let t = seed_alone(work, plan, to);
    search_back(work, plan, program, begin, from, t)
}

// The same with no first state: until none waits, so that every state from which the goal is reached has its distance.
pub fn all_distances(work: &mut [u32], plan: Plan, program: &[u64; 128], to: usize) -> usize
    requires backing { Backing plan program.now work.old }
    requires to_lt_places { to < plan.places }
    ensures { StoppedFrom (to ∷ []) (setting_at program.now plan work.old) plan [] 0 work.old result work.new }
{
    let t = seed_alone(work, plan, to);
    run_out(work, plan, program, t)
}
