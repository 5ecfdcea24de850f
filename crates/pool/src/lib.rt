// The largest cycles of colour sets, each set listed once, when it is asked for.
#![tactic(auto)]

ghost use Rattle.std.specs.Prelude.{◌≡◌, ◌+◌, ◌*◌, ◌≤◌, ◌<◌, length, get_or};
ghost use Rattle.policy.specs.declared.Policy.{Policy};
ghost use Rattle.policy.specs.ByColour.{edges_in};
ghost use Rattle.steps.specs.Steps.{StepsOf};
ghost use Rattle.pool.specs.Pool.{PartsOf, Pool, Appended, SetListed};

use graph::Graph;

// A policy's graph with its steps by colour, and the states of one of its roots: only cycles that have one of these are listed.
#[derive(Drop)]
pub struct RootGraph<'a> {
    pub graph: &'a Graph<'a>,
    pub steps: &'a [u64; 36],
    pub among: u64,
    ghost steps_are: { StepsOf graph.now.policy.now steps.now },
}

// The largest cycles among the edges with colours of s, and quiet ones, after the first `count`: how many there are then. Places past them are undecided. `left` has the states of
// the root that are on cycles, and on none of those listed.
pub fn list_edges(
    r: &RootGraph<'_>,
    s: u8,
    pool: &mut [u64],
    hues: &mut [u8],
    count: usize,
) -> usize
    requires policy { (p : Policy) × PartsOf p r.now.graph.now.policy.now.states r.now.steps.now r.now.graph.now.out r.now.graph.now.into r.now.graph.now.by }
    requires places { (count + 16 ≤ length pool.old) × (length hues.old ≡ length pool.old) }
    ensures { (p : Policy) → PartsOf p r.now.graph.now.policy.now.states r.now.steps.now r.now.graph.now.out r.now.graph.now.into r.now.graph.now.by → Appended p r.now.among (edges_in p s) pool.old hues.old count pool.new hues.new result }
{
    let g = r.graph;
    let states = g.policy.states as usize;
    let m = policy::edges_in(&g.by, s);
    let w = steps::reached(states, r.steps, s);
    let wanted = masks::both(r.among, masks::full(states));
    let mut left = masks::both(steps::on_cycles(states, w), wanted);
    let mut n = count;
    while left != 0 {
        let v = masks::lowest(left);
        let on = steps::cycle_states(states, w, v);
        let x = graph::edges_among(states, &g.out, &g.into, m, on);
        pool[n] = x;
        hues[n] = policy::colours_in(&g.by, x);
        left = masks::without(left, on);
        n += 1;
    }
    n
}

// The cycles of the colour set s, which is not listed yet. Places past them are undecided.
pub fn list_set(
    r: &RootGraph<'_>,
    s: u8,
    pool: &mut [u64],
    hues: &mut [u8],
    spans: &mut [u16],
    count: usize,
) -> usize
    requires policy { (p : Policy) × PartsOf p r.now.graph.now.policy.now.states r.now.steps.now r.now.graph.now.out r.now.graph.now.into r.now.graph.now.by × Pool p r.now.among pool.old hues.old spans.old count }
    requires places { (count + 16 ≤ length pool.old) × (s < 255) × (2 * s + 1 < length spans.old) × (get_or spans.old (2 * s + 1) 0 ≡ 0) }
    ensures { (p : Policy) → PartsOf p r.now.graph.now.policy.now.states r.now.steps.now r.now.graph.now.out r.now.graph.now.into r.now.graph.now.by → Pool p r.now.among pool.old hues.old spans.old count → SetListed p r.now.among s pool.old count pool.new hues.new spans.new result }
{
    let next = list_edges(r, s, pool, hues, count);
    let i = 2 * s as usize;
    spans[i] = count as u16;
    spans[i + 1] = (next - count + 1) as u16;
    next
}
