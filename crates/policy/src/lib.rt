// A policy: a deterministic Muller automaton with 1 to 16 states, 1 to 8 letters, 1 to 8 colours and at most 64 edges.
// Edge number = state times letters plus letter. Entries past the last edge are 0. family[s] says whether the colour set s is in the family. The quiet edges, a set, have no
// colour, and a recorded colour of 0.
#![tactic(auto)]

ghost use Rattle.std.specs.Prelude.{◌≡◌, ◌<◌, ◌≤◌, true, cond, replicate};
ghost use Rattle.masks.specs.Masks.{has};
ghost use Rattle.policy.specs.ByColour.{by_colour, table_edges, table_colours};
ghost use Rattle.policy.specs.Making.{counted};
ghost use Rattle.policy.specs.Policies.{accepting, counts_fit, edges, legal, legal_counts, legal_edges, legal_family, legal_graph, legal_quiet};

#[derive(Clone, Copy)]
pub struct Policy {
    pub states: u8,
    pub letters: u8,
    pub colours: u8,
    pub initial: u8,
    pub target: [u8; 64],
    pub colour: [u8; 64],
    pub family: [bool; 256],
    pub quiet: u64,
}

// A policy's counts, and the state begun in: the definitions name a policy by its shape and the rest.
#[derive(Clone, Copy)]
pub struct Shape {
    pub states: u8,
    pub letters: u8,
    pub colours: u8,
    pub initial: u8,
}

// How many edges there are.
pub fn edges(p: &Policy) -> usize
    ensures { result ≡ edges p.now }
{
    p.states as usize * p.letters as usize
}

// ---- the edges by colour

// The edges of each colour, and the quiet ones, in a table that is all 0. A quiet edge has the recorded colour 0, so it is taken from there in the end. A table that is given
// back by value may be copied.
pub fn collect_by_colour(p: &Policy, t: &mut [u64; 9])
    requires { (legal p.now ≡ true) × (t.old ≡ replicate 9 0) }
    ensures { t.new ≡ by_colour p.now }
{
    let colours = &p.colour[..edges(p)];
    for (e, c) in colours.iter().enumerate() {
        let c = *c as usize;
        t[c] = masks::with(t[c], e);
    }
    t[0] = masks::without(t[0], p.quiet);
    t[8] = p.quiet;
}

// The same by value.
pub fn by_colour(p: &Policy) -> [u64; 9]
    requires { legal p.now ≡ true }
    ensures { result ≡ by_colour p.now }
{
    let mut t = [0u64; 9];
    collect_by_colour(p, &mut t);
    t
}

// An edge set where the colour set c has colour k, and else none. By a product, since a branch could not be foretold.
pub fn where_has(c: u8, k: u8, m: u64) -> u64
    requires { k < 8 }
    ensures { result ≡ cond (has c k) m 0 }
{
    m * ((c >> k) % 2) as u64
}

// The edges whose colours lie in a colour set, by such a table.
pub fn edges_in(t: &[u64; 9], c: u8) -> u64
    ensures { result ≡ table_edges t.now c }
{
    let mut m = t[8];
    for k in 0..8u8 {
        m = masks::either(m, where_has(c, k, t[k as usize]));
    }
    m
}

// The colours of an edge set, by such a table.
pub fn colours_in(t: &[u64; 9], m: u64) -> u8
    ensures { result ≡ table_colours t.now m }
{
    let mut s: u8 = 0;
    for k in 0..8 {
        s = masks::with_if(s, k, masks::both(m, t[k]) != 0);
    }
    s
}

// The verdict of an edge set, by such a table.
pub fn accepts(p: &Policy, by: &[u64; 9], m: u64) -> bool
    requires { (legal p.now ≡ true) × (by.now ≡ by_colour p.now) }
    ensures { result ≡ accepting p.now m }
{
    let c = colours_in(by, m) as usize;
    p.family[c]
}

// ---- making a policy

// The policy of these counts, with edges and family all zero, and no edge quiet.
pub fn counted(states: u8, letters: u8, colours: u8, initial: u8) -> Policy
    ensures { result ≡ counted states letters colours initial }
{
    Policy {
        states,
        letters,
        colours,
        initial,
        target: [0; 64],
        colour: [0; 64],
        family: [false; 256],
        quiet: 0,
    }
}

// ---- legal policies

// Whether counts are within the limits.
pub fn counts_fit(states: u8, letters: u8, colours: u8, initial: u8) -> bool
    ensures { result ≡ counts_fit states letters colours initial }
{
    let edges = states as usize * letters as usize;
    (1 <= states)
        & (states <= 16)
        & (1 <= letters)
        & (letters <= 8)
        & (1 <= colours)
        & (colours <= 8)
        & (edges <= 64)
        & (initial < states)
}

fn has_legal_counts(p: &Policy) -> bool
    ensures { result ≡ legal_counts p.now }
{
    counts_fit(p.states, p.letters, p.colours, p.initial)
}

// Whether every edge leads to a state and has a recorded colour, and every entry past the last edge is 0. Numbers of one byte throughout, so that many edges are looked at together; by index, since both arrays and the number are read side by side.
fn has_legal_edges(p: &Policy) -> bool
    requires { edges p.now ≤ 64 }
    ensures { result ≡ legal_edges p.now }
{
    let n = edges(p) as u8;
    let mut b = true;
    for e in 0..64u8 {
        let heads = if e < n { p.states } else { 1 };
        let colours = if e < n { p.colours } else { 1 };
        b = b & (p.target[e as usize] < heads) & (p.colour[e as usize] < colours);
    }
    b
}

// Whether every quiet edge has the recorded colour 0, and nothing past the last edge is quiet. Most policies have no quiet edge.
fn has_legal_quiet(p: &Policy) -> bool
    requires { edges p.now ≤ 64 }
    ensures { result ≡ legal_quiet p.now }
{
    if p.quiet == 0 {
        return true;
    }
    let mut b = masks::inside(p.quiet, masks::full(edges(p)));
    for (e, c) in p.colour.iter().enumerate() {
        b = b & (!masks::has(p.quiet, e) | (*c == 0));
    }
    b
}

// Whether the family has no set outside the colours. In two parts, so that what is looked at together was written together.
fn has_legal_family(p: &Policy) -> bool
    requires { p.now.colours ≤ 8 }
    ensures { result ≡ legal_family p.now }
{
    let top: usize = 1 << p.colours;
    let mut b = true;
    let from = top.max(16);
    for accepted in &p.family[top..from] {
        b = b & !*accepted;
    }
    for accepted in &p.family[from..] {
        b = b & !*accepted;
    }
    b
}

// Whether a policy is legal but for its family.
pub fn is_legal_graph(p: &Policy) -> bool
    ensures { result ≡ legal_graph p.now }
{
    if has_legal_counts(p) {
        return has_legal_quiet(p) & has_legal_edges(p);
    }
    false
}

// Whether a policy is legal. The edges and the family are looked at without a branch between them.
pub fn is_legal(p: &Policy) -> bool
    ensures { result ≡ legal p.now }
{
    if has_legal_counts(p) {
        return has_legal_quiet(p) & has_legal_edges(p) & has_legal_family(p);
    }
    false
}
