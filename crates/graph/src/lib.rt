// Paths and cycles of a policy's graph. A set of states is a mask, as a set of edges is. The rows of an edge set m: row v has
// the states that v reaches inside m by one edge or more.
#![tactic(auto)]

ghost use Rattle.std.specs.Prelude.{ℕ, ◌≡◌, true, ◌+◌, ◌*◌, ◌<◌, ◌≤◌, length, get_or};
ghost use Rattle.masks.specs.Masks.{has};
ghost use Rattle.policy.specs.declared.Policy.{Policy};
ghost use Rattle.policy.specs.Policies.{legal};
ghost use Rattle.policy.specs.ByColour.{by_colour};
ghost use Rattle.graph.specs.Through.{GraphOf, EndsOf, Rows, own_edges, leaving, entering, with_target, edge_row, edge_rows, AreStates, join_row, join_rows, states_on_cycles, cycle_states, between};

use policy::Policy;

// A legal policy with its tables of edges: those that leave and that enter each state, and those of each colour.
#[derive(Drop)]
pub struct Graph<'a> {
    pub policy: &'a Policy,
    pub out: [u64; 16],
    pub into: [u64; 16],
    pub by: [u64; 9],
    ghost lawful: { legal policy.now ≡ true },
    ghost ends: { EndsOf policy.now out into },
    ghost by_is: { by ≡ by_colour policy.now },
}

impl<'a> Graph<'a> {
    // The tables of a policy, made once.
    pub fn new(policy: &'a Policy) -> Graph<'a>
        requires { legal policy.now ≡ true }
        ensures { result.policy.now ≡ policy.now }
    {
        let states = policy.states as usize;
        let letters = policy.letters as usize;
        let out = edges_out(states, letters);
        let into = edges_into(&policy.target, states * letters);
        let mut by = [0u64; 9];
        policy::collect_by_colour(policy, &mut by);
        Graph {
            policy,
            out,
            into,
            by,
        }
    }
}

// ---- the rows

// A row, with the target of edge e where e is in m. The targets are t.
fn with_target(t: &[u8; 64], m: u64, row: u64, e: usize) -> u64
    requires { (e < 64) × (get_or t.now e 0 < 16) }
    ensures { result ≡ with_target t.now m row e }
{
    masks::with_if(row, t[e] as usize, masks::has(m, e))
}

// The targets of the edges of v in m.
fn edge_row(t: &[u8; 64], letters: usize, m: u64, v: usize) -> u16
    requires { (v * letters + letters ≤ 64) × AreStates t.now (v * letters + letters) }
    ensures { result ≡ edge_row t.now letters m v letters }
{
    let first = v * letters;
    let mut row: u64 = 0;
    for a in 0..letters {
        row = with_target(t, m, row, first + a);
    }
    row as u16
}

// The rows of single edges.
fn edge_rows(states: usize, letters: usize, heads: &[u8; 64], m: u64, rows: &mut [u16; 16])
    requires { (states ≤ 16) × (states * letters ≤ 64) × AreStates heads.now (states * letters) }
    ensures { rows.new ≡ edge_rows rows.old heads.now letters m states }
{
    for v in 0..states {
        rows[v] = edge_row(heads, letters, m, v);
    }
}

// A row that has k, with the row of k.
fn join_row(row: u16, k: usize, pivot: u16) -> u16
    requires { k < 16 }
    ensures { result ≡ join_row row k pivot }
{
    if (row >> k) % 2 == 1 {
        return row | pivot;
    }
    row
}

// The rows, each so joined: always 16 of them, so that they go into vector instructions.
fn join_rows(rows: &mut [u16; 16], k: usize)
    requires { k < 16 }
    ensures { rows.new ≡ join_rows rows.old k (get_or rows.old k 0) 16 }
{
    let pivot = rows[k];
    for u in 0..16 {
        rows[u] = join_row(rows[u], k, pivot);
    }
}

// The rows of m, whatever they held before: those of every legal policy with this graph. Nothing is said of rows past the states.
pub fn reach_all(p: &Policy, m: u64, rows: &mut [u16; 16])
    requires { ((q : Policy) × GraphOf q p.now.states p.now.letters p.now.target) × (length rows.old ≡ 16) }
    ensures { ((q : Policy) → GraphOf q p.now.states p.now.letters p.now.target → Rows q m rows.new) × (length rows.new ≡ 16) }
{
    let states = p.states as usize;
    edge_rows(states, p.letters as usize, &p.target, m, rows);
    for k in 0..states {
        join_rows(rows, k);
    }
}

// ---- the largest cycle through a state: the edges of m between the states on it

// The states on cycles: those that are in their own rows.
pub fn states_on_cycles(states: usize, rows: &[u16; 16]) -> u64
    requires { states ≤ 16 }
    ensures { result ≡ states_on_cycles rows.now states }
{
    let mut s: u64 = 0;
    for w in 0..states {
        s = masks::with_if(s, w, masks::has(rows[w] as u64, w));
    }
    s
}

// The states on the largest cycle through v, where there is one: those of v's row that have the same row.
pub fn cycle_states(rows: &[u16; 16], v: usize) -> u64
    requires { v < 16 }
    ensures { result ≡ cycle_states rows.now v }
{
    let row = rows[v];
    let mut s: u64 = 0;
    for w in 0..16 {
        s = masks::with_if(s, w, rows[w] == row);
    }
    masks::both(s, row as u64)
}

// The edges of m between states of s, by the tables of the edges that leave and enter each state. The tables are read before
// the test, so that there is no branch.
pub fn edges_between(states: usize, out: &[u64; 16], into: &[u64; 16], m: u64, s: u64) -> u64
    requires { states ≤ 16 }
    ensures { result ≡ between out.now into.now m s states }
{
    let mut a: u64 = 0;
    let mut b: u64 = 0;
    for v in 0..states {
        let x = out[v];
        let y = into[v];
        if masks::has(s, v) {
            a = masks::either(a, x);
            b = masks::either(b, y);
        }
    }
    masks::both(masks::both(a, b), m)
}

// The same, through the members of s alone: faster where they are few.
pub fn edges_among(states: usize, out: &[u64; 16], into: &[u64; 16], m: u64, s: u64) -> u64
    requires { (states ≤ 16) × ((v : ℕ) → has s v ≡ true → v < states) }
    ensures { result ≡ between out.now into.now m s states }
{
    let mut a: u64 = 0;
    let mut b: u64 = 0;
    let mut left = s;
    while left != 0 {
        let v = masks::lowest(left);
        a = masks::either(a, out[v]);
        b = masks::either(b, into[v]);
        left = masks::both(left, left - 1);
    }
    masks::both(masks::both(a, b), m)
}

// ---- the tables of edges, made once for a policy

// The edges that leave state v.
pub fn own_edges(letters: usize, v: usize) -> u64
    requires { v * letters + letters ≤ 64 }
    ensures { result ≡ own_edges letters v }
{
    let first = v * letters;
    masks::full(letters) << first
}

// The edges that leave each state.
pub fn edges_out(states: usize, letters: usize) -> [u64; 16]
    requires { (states ≤ 16) × (states * letters ≤ 64) }
    ensures { result ≡ leaving letters states }
{
    let mut t = [0u64; 16];
    for v in 0..states {
        t[v] = own_edges(letters, v);
    }
    t
}

// The edges below n that enter each state.
pub fn edges_into(heads: &[u8; 64], n: usize) -> [u64; 16]
    requires { (n ≤ 64) × AreStates heads.now n }
    ensures { result ≡ entering heads.now n }
{
    let mut t = [0u64; 16];
    for e in 0..n {
        let v = heads[e] as usize;
        t[v] = masks::with(t[v], e);
    }
    t
}
