// What each state reaches by the edges of a colour set. The states that a state leads to by one edge are a row of 16 bits; four rows make a word. A table that is made once for a policy
// has the words of each colour, and those of the quiet edges: so the rows of a colour set are found without a look at each edge, and four rows are joined at once.
#![tactic(auto)]

ghost use Rattle.std.specs.Prelude.{◌≡◌, Bool, true, ◌&&◌, cond, ℕ, ◌+◌, ◌*◌, ◌%◌, ◌<◌, ◌≤◌, length, get_or};
ghost use Rattle.tables.specs.Copies.{part};
ghost use Rattle.masks.specs.Masks.{has};
ghost use Rattle.policy.specs.declared.Policy.{Policy};
ghost use Rattle.policy.specs.Policies.{legal};
ghost use Rattle.policy.specs.ByColour.{edges_in, table_edges};
ghost use Rattle.graph.specs.Through.{join_row, onward};
ghost use Rattle.steps.specs.Steps.{word_row, row_at, turned, word_bit, Placed, EdgesOf, StepsTo, StepsOf};

// ---- the table, made once for a policy
// The entry of an edge: its colour, and 8 for a quiet one.
fn entry_of(colours: &[u8; 64], quiet: u64, e: usize) -> usize
    requires { (e < 64) × (get_or colours.now e 0 < 8) }
    ensures { result ≡ cond (has quiet e) 8 (get_or colours.now e 0) }
{
    if masks::has(quiet, e) {
        return 8;
    }
    colours[e] as usize
}

// The table, with the edges of state v.
fn add_steps(
    letters: usize,
    quiet: u64,
    heads: &[u8; 64],
    colours: &[u8; 64],
    v: usize,
    t: &mut [u64; 36],
)
    requires { ((p : Policy) × EdgesOf p letters quiet heads.now colours.now × (v < p.states)) × (length t.old ≡ 36) }
    ensures { (length t.new ≡ 36) × ((p : Policy) → EdgesOf p letters quiet heads.now colours.now → v < p.states → StepsTo p t.old (v * letters) → StepsTo p t.new (v * letters + letters)) }
{
    let first = v * letters;
    let word = 9 * (v / 4);
    let low = 16 * (v % 4);
    for a in 0..letters {
        let e = first + a;
        let i = word + entry_of(colours, quiet, e);
        t[i] = masks::with(t[i], low + heads[e] as usize);
    }
}

// The table of a policy, from its parts.
pub fn edge_steps(
    states: usize,
    letters: usize,
    quiet: u64,
    heads: &[u8; 64],
    colours: &[u8; 64],
) -> [u64; 36]
    requires { (p : Policy) × EdgesOf p letters quiet heads.now colours.now × (states ≡ p.states) }
    ensures { (p : Policy) → EdgesOf p letters quiet heads.now colours.now → states ≡ p.states → StepsOf p result }
{
    let mut t = [0u64; 36];
    for v in 0..states {
        add_steps(letters, quiet, heads, colours, v, &mut t);
    }
    t
}

// ---- the words of a colour set
// Word j of the quiet edges, and of the edges with colours of s.
fn word_of(steps: &[u64; 36], s: u8, j: usize) -> u64
    requires { j < 4 }
    ensures { result ≡ table_edges (part 9 (9 * j) steps.now) s }
{
    let first = 9 * j;
    let mut w = steps[first + 8];
    for k in 0..8u8 {
        w = masks::either(w, policy::where_has(s, k, steps[first + k as usize]));
    }
    w
}

// ---- the rows joined
#[derive(Clone, Copy)]
pub struct Words {
    pub a: u64,
    pub b: u64,
    pub c: u64,
    pub d: u64,
}

// Row i of a word.
fn row_of(w: u64, i: usize) -> u64
    requires { i < 4 }
    ensures { result ≡ word_row w i }
{
    (w >> (16 * i)) % 65536
}

// Row v of four words.
fn row_at(w: Words, v: usize) -> u64
    requires { v < 16 }
    ensures { result ≡ row_at w.a w.b w.c w.d v }
{
    if v < 4 {
        return row_of(w.a, v % 4);
    }
    if v < 8 {
        return row_of(w.b, v % 4);
    }
    if v < 12 {
        return row_of(w.c, v % 4);
    }
    row_of(w.d, v % 4)
}

// A word, each of its rows joined at k. The product has the row that is joined in the place of each row that has k.
fn joined(w: u64, k: usize, pivot: u64) -> u64
    requires { (k < 16) × (pivot < 65536) }
    ensures { (i : ℕ) → i < 4 → word_row result i ≡ join_row (word_row w i) k pivot }
{
    w | (((w >> k) & 0x0001_0001_0001_0001) * pivot)
}

// All rows joined at k.
fn turn(w: Words, k: usize) -> Words
    requires { k < 16 }
    ensures { (v : ℕ) → v < 16 → row_at result.a result.b result.c result.d v ≡ join_row (row_at w.a w.b w.c w.d v) k (row_at w.a w.b w.c w.d k) }
{
    let pivot = row_at(w, k);
    Words {
        a: joined(w.a, k, pivot),
        b: joined(w.b, k, pivot),
        c: joined(w.c, k, pivot),
        d: joined(w.d, k, pivot),
    }
}

// The rows joined at each of the first N states in turn. The compiler lays out up to eight turns, so that the words stay in registers.
fn closed<const N: usize>(w: Words) -> Words
    requires { N ≤ 16 }
    ensures { (v : ℕ) → v < 16 → row_at result.a result.b result.c result.d v ≡ turned (row_at w.a w.b w.c w.d) N v }
{
    let mut joined = w;
    for k in 0..N {
        joined = turn(joined, k);
    }
    joined
}

// The same of 16. Without a loop, which the compiler would keep: tried, and slower.
fn closed_16(w: Words) -> Words
    ensures { (v : ℕ) → v < 16 → row_at result.a result.b result.c result.d v ≡ turned (row_at w.a w.b w.c w.d) 16 v }
{
    let w0 = turn(w, 0);
    let w1 = turn(w0, 1);
    let w2 = turn(w1, 2);
    let w3 = turn(w2, 3);
    let w4 = turn(w3, 4);
    let w5 = turn(w4, 5);
    let w6 = turn(w5, 6);
    let w7 = turn(w6, 7);
    let w8 = turn(w7, 8);
    let w9 = turn(w8, 9);
    let w10 = turn(w9, 10);
    let w11 = turn(w10, 11);
    let w12 = turn(w11, 12);
    let w13 = turn(w12, 13);
    let w14 = turn(w13, 14);
    turn(w14, 15)
}

// What each state reaches by one edge or more with colours of s, or quiet: the words.
pub fn reached(states: usize, steps: &[u64; 36], s: u8) -> Words
    requires { states ≤ 16 }
    ensures { (p : Policy) → legal p ≡ true → states ≡ p.states → StepsOf p steps.now → (v : ℕ) → v < states → row_at result.a result.b result.c result.d v ≡ onward p (edges_in p s) v }
{
    let a = word_of(steps, s, 0);
    if states <= 4 {
        return closed::<4>(Words {
            a,
            b: 0,
            c: 0,
            d: 0,
        });
    }
    let b = word_of(steps, s, 1);
    if states <= 8 {
        return closed::<8>(Words { a, b, c: 0, d: 0 });
    }
    let c = word_of(steps, s, 2);
    let d = word_of(steps, s, 3);
    closed_16(Words { a, b, c, d })
}

// ---- the states on cycles
// The bit of each state of word j in its own row.
fn own_bits(w: u64, j: usize) -> u64
    requires { j < 4 }
    ensures { Placed 16 (word_bit (λ (e : ℕ). e) w j) result }
{
    w & (0x0008_0004_0002_0001 << (4 * j))
}

// The bit of v in the row of each state of word j, moved up by 4 j.
fn column(w: u64, v: usize, j: usize) -> u64
    requires { (v < 16) × (j < 4) }
    ensures { Placed 15 (word_bit (λ (e : ℕ). v) w j) result }
{
    ((w >> v) & 0x0001_0001_0001_0001) << (4 * j)
}

// The bits that are placed in x, as a set of states.
fn folded(x: u64, by: usize) -> u64
    requires { by ≤ 16 }
    ensures { (t : ℕ → Bool) → Placed by t x → (e : ℕ) → e < 16 → has result e ≡ t e }
{
    let y = x | (x >> (2 * by));
    (y | (y >> by)) % 65536
}

// The states that reach themselves. Nothing is said of states past the last.
pub fn on_cycles(states: usize, w: Words) -> u64
    requires { states ≤ 16 }
    ensures { (v : ℕ) → v < states → has result v ≡ has (row_at w.a w.b w.c w.d v) v }
{
    let a = own_bits(w.a, 0);
    if states <= 4 {
        return folded(a, 16);
    }
    let b = a | own_bits(w.b, 1);
    if states <= 8 {
        return folded(b, 16);
    }
    let c = b | own_bits(w.c, 2);
    folded(c | own_bits(w.d, 3), 16)
}

// The states that reach v. Nothing is said of states past the last.
fn states_before(states: usize, w: Words, v: usize) -> u64
    requires { (states ≤ 16) × (v < 16) }
    ensures { (u : ℕ) → u < states → has result u ≡ has (row_at w.a w.b w.c w.d u) v }
{
    let a = column(w.a, v, 0);
    if states <= 4 {
        return folded(a, 15);
    }
    let b = a | column(w.b, v, 1);
    if states <= 8 {
        return folded(b, 15);
    }
    let c = b | column(w.c, v, 2);
    folded(c | column(w.d, v, 3), 15)
}

// The states that v reaches and that reach v.
pub fn cycle_states(states: usize, w: Words, v: usize) -> u64
    requires { (states ≤ 16) × (v < 16) }
    ensures { ((u : ℕ) → has result u ≡ true → has (row_at w.a w.b w.c w.d v) u ≡ true) × ((u : ℕ) → u < states → has result u ≡ (has (row_at w.a w.b w.c w.d v) u && has (row_at w.a w.b w.c w.d u) v)) }
{
    row_at(w, v) & states_before(states, w, v)
}
