// Comparing two policies over one graph, by pairs of colour sets: c of p's colours and d of q's. All cycles with exactly these colours have one verdict in p and one in q;
// where the two differ, the largest cycles of the edges with these colours tell whether there is such a cycle. The tables of each policy are made once: of q the edges by colour alone.
#![tactic(auto)]

ghost use Rattle.std.specs.Prelude.{◌≡◌, true, ◌≤◌, ◌^◌, length};
ghost use Rattle.policy.specs.Policies.{legal};
ghost use Rattle.policy.specs.ByColour.{by_colour};
ghost use Rattle.graph.specs.SameGraph.{same_graph, same_targets};
ghost use Rattle.comparing.specs.Comparing.{Compares};
ghost use Rattle.comparing.specs.Pairs.{Comparable, exactly_by, needs_search_by, no_cycle, set_agrees, pairs_agree};

use graph::Graph;
use policy::Policy;
use refusals::Refusal;

// A policy with its edges by colour.
#[derive(Drop)]
struct Coloured<'a> {
    policy: &'a Policy,
    by: [u64; 9],
    ghost by_is: { by ≡ by_colour policy.now },
}

// ---- question 15

// Whether each edge has one target in both.
fn has_same_targets(p: &Policy, q: &Policy) -> bool
    requires { legal p.now ≡ true }
    ensures { result ≡ same_targets p.now q.now }
{
    let n = policy::edges(p);
    // By index: two tables are read side by side.
    for e in 0..n {
        if p.target[e] != q.target[e] {
            return false;
        }
    }
    true
}

// Whether both have the same states, letters and targets.
fn has_same_graph(p: &Policy, q: &Policy) -> bool
    requires { legal p.now ≡ true }
    ensures { result ≡ same_graph p.now q.now }
{
    if p.states != q.states {
        return false;
    }
    if p.letters != q.letters {
        return false;
    }
    has_same_targets(p, q)
}

// ---- one pair of colour sets: g is p and h is q, each with its tables

// Whether m has exactly the colours c in p and exactly d in q.
fn has_exactly(g: &Graph<'_>, h: &Coloured<'_>, c: u8, d: u8, m: u64) -> bool
    ensures { result ≡ exactly_by g.now.by h.now.by c d m }
{
    policy::colours_in(&g.by, m) == c && policy::colours_in(&h.by, m) == d
}

// Whether no cycle has exactly these colours. The rows are space that is lent, and `left` has the states on cycles that
// are on none of those looked at.
fn has_no_cycle(g: &Graph<'_>, h: &Coloured<'_>, rows: &mut [u16; 16], c: u8, d: u8) -> bool
    requires { Comparable g.now.policy.now h.now.policy.now × (length rows.old ≡ 16) }
    ensures { (result ≡ no_cycle g.now.policy.now h.now.policy.now c d) × (length rows.new ≡ 16) }
{
    let m = masks::both(policy::edges_in(&g.by, c), policy::edges_in(&h.by, d));
    graph::reach_all(g.policy, m, rows);
    let states = g.policy.states as usize;
    let mut left = graph::states_on_cycles(states, rows);
    for v in 0..states {
        if masks::has(left, v) {
            let s = graph::cycle_states(rows, v);
            let x = graph::edges_between(states, &g.out, &g.into, m, s);
            if has_exactly(g, h, c, d, x) {
                return false;
            }
            left = masks::without(left, s);
        }
    }
    true
}

// Whether the verdicts differ, and the edges with these colours have all of them; where they have not, there is no cycle with exactly these. m is the edges of p in the
// colours c, and verdict that of c. Put into its caller, which reads q's family at each turn.
#[inline(always)]
fn needs_search(g: &Graph<'_>, h: &Coloured<'_>, verdict: bool, m: u64, c: u8, d: u8) -> bool
    ensures { result ≡ needs_search_by g.now.by h.now.by h.now.policy.now.family verdict m c d }
{
    if h.policy.family[d as usize] == verdict {
        return false;
    }
    let x = masks::both(m, policy::edges_in(&h.by, d));
    has_exactly(g, h, c, d, x)
}

// ---- all pairs

// Whether c agrees with every set of q's colours: the cycles with exactly these colours, if there are any, have the same verdict in both. Only sets of the colours in
// use have to be looked at, those that the edges in the colours c have in q: each is the largest below the one before.
fn set_agrees(g: &Graph<'_>, h: &Coloured<'_>, rows: &mut [u16; 16], c: u8) -> bool
    requires { Comparable g.now.policy.now h.now.policy.now × (length rows.old ≡ 16) }
    ensures { (result ≡ set_agrees g.now.policy.now h.now.policy.now c) × (length rows.new ≡ 16) }
{
    let m = policy::edges_in(&g.by, c);
    if policy::colours_in(&g.by, m) != c {
        return true;
    }
    let verdict = g.policy.family[c as usize];
    let used = policy::colours_in(&h.by, m);
    let mut d = used;
    loop {
        if needs_search(g, h, verdict, m, c, d) {
            if !has_no_cycle(g, h, rows, c, d) {
                return false;
            }
        }
        if d == 0 {
            return true;
        }
        d = (d - 1) & used;
    }
}

// Whether every pair agrees.
fn pairs_agree(g: &Graph<'_>, h: &Coloured<'_>) -> bool
    requires { Comparable g.now.policy.now h.now.policy.now }
    ensures { result ≡ pairs_agree g.now.policy.now h.now.policy.now }
{
    let mut rows = [0u16; 16];
    let n = 1usize << g.policy.colours;
    for c in 0..n {
        if !set_agrees(g, h, &mut rows, c as u8) {
            return false;
        }
    }
    true
}

// Compares two policies: whether every cycle, reached or not, has the same verdict in both. Refused with 7 where one is not legal, with 15 where their states,
// letters or targets differ.
pub fn compare(p: &Policy, q: &Policy) -> Result<bool, Refusal>
    ensures { Compares p.now q.now result }
{
    if !policy::is_legal(p) || !policy::is_legal(q) {
        return Err(Refusal::IllegalPolicy);
    }
    if !has_same_graph(p, q) {
        return Err(Refusal::DifferentGraphs);
    }
    let second = Coloured {
        policy: q,
        by: policy::by_colour(q),
    };
    Ok(pairs_agree(&Graph::new(p), &second))
}
