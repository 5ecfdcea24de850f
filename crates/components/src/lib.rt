// The largest cycles inside an edge set, one for each strongly connected component that has an edge, by their lowest states.
#![tactic(auto)]

ghost use Rattle.std.specs.Prelude.{◌≡◌, length};
ghost use Rattle.policy.specs.declared.Policy.{Policy};
ghost use Rattle.graph.specs.Through.{GraphOf, EndsOf};
ghost use Rattle.components.specs.Finding.{Found};

use policy::Policy;

// The largest cycles inside m, by their lowest states. `left` has the states on cycles that are on none of those found, so the lowest state of each is met first. `out` and `into` are
// the edges that leave and enter each state. The rows are space that is lent.
pub fn fill_cycles(
    p: &Policy,
    out: &[u64; 16],
    into: &[u64; 16],
    m: u64,
    rows: &mut [u16; 16],
    cycles: &mut [u64; 16],
) -> usize
    requires policy { (q : Policy) × GraphOf q p.now.states p.now.letters p.now.target × EndsOf q out.now into.now }
    requires places { (length rows.old ≡ 16) × (length cycles.old ≡ 16) }
    ensures { ((q : Policy) → GraphOf q p.now.states p.now.letters p.now.target → EndsOf q out.now into.now → Found q m cycles.old cycles.new result) × (length rows.new ≡ 16) }
{
    graph::reach_all(p, m, rows);
    let states = p.states as usize;
    let mut left = graph::states_on_cycles(states, rows);
    let mut n: usize = 0;
    for v in 0..states {
        if masks::has(left, v) {
            let s = graph::cycle_states(rows, v);
            let x = graph::edges_between(states, out, into, m, s);
            left = masks::without(left, s);
            cycles[n] = x;
            n += 1;
        }
    }
    n
}
