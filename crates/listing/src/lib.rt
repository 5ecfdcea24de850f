// The candidates of a root, listed by verdict: colour set by colour set, by falling mask, the wanted cycles inside the root. Beside the lists of accepting and of rejecting masks
// stand their colour sets, accepted and rejected.
#![tactic(auto)]

ghost use Rattle.std.specs.Prelude.{◌≡◌, ◌⊎◌, true, false, cond, ℕ, ◌+◌, ◌-◌, ◌<◌, ◌≤◌, eqb, length, get_or, set, take};
ghost use mathlib.Core.List.{List, map, Memᴰ};
ghost use Rattle.policy.specs.declared.Policy.{Policy};
ghost use Rattle.policy.specs.Policies.{colours_of, in_family, legal};
ghost use Rattle.policy.specs.ByColour.{by_colour, edges_in, table_colours};
ghost use Rattle.components.specs.Components.{largest_in};
ghost use Rattle.forest.specs.Forest.{roots};
ghost use Rattle.candidates.specs.Candidates.{with_cycle, with_cycles, Live};
ghost use Rattle.masks.specs.Masks.{inside};
ghost use Rattle.looks.specs.Spans.{upper};
ghost use Rattle.listing.specs.Listing.{Hued, PartsOf, union_to, OnCycles, Settled, Listed, lacks_room, Outcome};

use graph::Graph;

// How many masks each list holds.
#[derive(Clone, Copy)]
pub struct Counts {
    pub accepting: usize,
    pub rejecting: usize,
}

// The same, and whether the listing is whole. The counts are promised where it is not, too, so they are not in an Option.
#[derive(Clone, Copy)]
pub struct Listing {
    pub counts: Counts,
    pub whole: bool,
}

// How many masks a list holds, and edges that have the cycles of a set.
#[derive(Clone, Copy)]
struct Cycles {
    count: usize,
    edges: u64,
}

// The lists after some sets: those below `left` are left.
#[derive(Clone, Copy)]
struct Step {
    counts: Counts,
    left: u8,
}

// The cycle x after the first `count` masks of a list, if its colours by the table are exactly c and it is wanted. It has many parameters, as those below: both lists with their
// colours. Of a struct with these `&mut`s the proof did not close: after a slice is lent, what stands behind them was not known.
fn append_cycle(
    by: &[u64; 9],
    c: u8,
    x: u64,
    other: &[u64],
    hues: &[u8],
    same: &mut [u64],
    own: &mut [u8],
    count: usize,
) -> usize
    requires other { hues.now ≡ map (table_colours by.now) other.now }
    requires room { Hued (table_colours by.now) same.old own.old count × (count < length same.old) × (count < length own.old) }
    ensures masks { take result same.new ≡ with_cycle (table_colours by.now) c other.now (take count same.old) x }
    ensures hues { Hued (table_colours by.now) same.new own.new result × (result ≤ count + 1) }
{
    if policy::colours_in(by, x) != c {
        return count;
    }
    if looks::is_wanted(c, x, other, hues, &same[..count]) {
        same[count] = x;
        own[count] = c;
        return count + 1;
    }
    count
}

// Some cycles in turn.
fn append_cycles(
    by: &[u64; 9],
    c: u8,
    cycles: &[u64],
    other: &[u64],
    hues: &[u8],
    same: &mut [u64],
    own: &mut [u8],
    count: usize,
) -> usize
    requires other { hues.now ≡ map (table_colours by.now) other.now }
    requires room { Hued (table_colours by.now) same.old own.old count × (count + length cycles.now ≤ length same.old) × (count + length cycles.now ≤ length own.old) }
    ensures masks { take result same.new ≡ with_cycles (table_colours by.now) c other.now (take count same.old) cycles.now }
    ensures hues { Hued (table_colours by.now) same.new own.new result }
{
    let mut next = count;
    for &x in cycles {
        next = append_cycle(by, c, x, other, hues, same, own, next);
    }
    next
}

// Some cycles as one edge set.
fn union_of(cycles: &[u64]) -> u64
    ensures { result ≡ union_to cycles.now (length cycles.now) }
{
    let mut edges: u64 = 0;
    for &x in cycles {
        edges = masks::either(edges, x);
    }
    edges
}

// The edges of m that are on cycles inside it.
fn edges_on_cycles(g: &Graph<'_>, m: u64) -> u64
    ensures { (p : Policy) (by : List ℕ) → PartsOf p g.now.policy.now.states g.now.policy.now.letters g.now.policy.now.target g.now.out g.now.into by → OnCycles p m result }
{
    let mut rows = [0u16; 16];
    let mut cycles = [0u64; 16];
    let n = components::fill_cycles(g.policy, &g.out, &g.into, m, &mut rows, &mut cycles);
    union_of(&cycles[..n])
}

// The wanted ones of the largest cycles inside m whose colours are exactly c, after the first `count` masks of a list.
fn list_cycles(
    g: &Graph<'_>,
    c: u8,
    m: u64,
    other: &[u64],
    hues: &[u8],
    same: &mut [u64],
    own: &mut [u8],
    count: usize,
) -> Cycles
    requires other { hues.now ≡ map (table_colours g.now.by) other.now }
    requires room { Hued (table_colours g.now.by) same.old own.old count × (count + 16 ≤ length same.old) × (count + 16 ≤ length own.old) }
    ensures masks { (p : Policy) → PartsOf p g.now.policy.now.states g.now.policy.now.letters g.now.policy.now.target g.now.out g.now.into g.now.by → take result.count same.new ≡ with_cycles (table_colours g.now.by) c other.now (take count same.old) (largest_in p m) }
    ensures hues { Hued (table_colours g.now.by) same.new own.new result.count }
    ensures edges { (p : Policy) → PartsOf p g.now.policy.now.states g.now.policy.now.letters g.now.policy.now.target g.now.out g.now.into g.now.by → OnCycles p m result.edges }
{
    let mut rows = [0u16; 16];
    let mut cycles = [0u64; 16];
    let n = components::fill_cycles(g.policy, &g.out, &g.into, m, &mut rows, &mut cycles);
    let edges = union_of(&cycles[..n]);
    let next = append_cycles(&g.by, c, &cycles[..n], other, hues, same, own, count);
    Cycles { count: next, edges }
}

// The same, where m is wanted; elsewhere there are none.
fn list_wanted(
    g: &Graph<'_>,
    c: u8,
    m: u64,
    other: &[u64],
    hues: &[u8],
    same: &mut [u64],
    own: &mut [u8],
    count: usize,
) -> Cycles
    requires other { hues.now ≡ map (table_colours g.now.by) other.now }
    requires room { Hued (table_colours g.now.by) same.old own.old count × (count + 16 ≤ length same.old) × (count + 16 ≤ length own.old) }
    ensures masks { (p : Policy) → PartsOf p g.now.policy.now.states g.now.policy.now.letters g.now.policy.now.target g.now.out g.now.into g.now.by → take result.count same.new ≡ with_cycles (table_colours g.now.by) c other.now (take count same.old) (largest_in p m) }
    ensures hues { Hued (table_colours g.now.by) same.new own.new result.count }
    ensures edges { (p : Policy) → PartsOf p g.now.policy.now.states g.now.policy.now.letters g.now.policy.now.target g.now.out g.now.into g.now.by → OnCycles p m result.edges }
{
    if looks::is_wanted(c, m, other, hues, &same[..count]) {
        return list_cycles(g, c, m, other, hues, same, own, count);
    }
    Cycles { count, edges: m }
}

// What is left after c: the sets below it, or where no edge is left those below its span.
fn left_after(edges: u64, up: u8, c: u8) -> u8
    ensures { result ≡ cond (eqb edges 0) up c }
{
    if edges == 0 {
        return up;
    }
    c
}

// ---- what a search settles
// After a search of the set c with the verdict v that left the edges e: the sets from the answer up to c are settled. That is told where all of them have this verdict, and of the
// cycles found those that may be children of listed masks have colours below. Where they begin is undecided.
fn past_settled(
    g: &Graph<'_>,
    v: bool,
    up: u8,
    c: u8,
    e: u64,
    other: &[u64],
    hues: &[u8],
    same: &[u64],
) -> u8
    requires other { (hues.now ≡ map (table_colours g.now.by) other.now) × (up ≤ c) }
    ensures settled { (p : Policy) → PartsOf p g.now.policy.now.states g.now.policy.now.letters g.now.policy.now.target g.now.out g.now.into g.now.by → g.now.policy.now.family ≡ p.family → inside (colours_of p e) c ≡ true → Settled p v up c e other.now same.now result }
    ensures left { (up ≤ result) × (result ≤ c) }
{
    if !looks::are_above(up, c, hues) {
        return c;
    }
    if !looks::is_uniform(&g.policy.family, looks::first_from(&g.by, up), c, v) {
        return c;
    }
    let mut rows = [0u16; 16];
    let mut cycles = [0u64; 16];
    let n = components::fill_cycles(g.policy, &g.out, &g.into, e, &mut rows, &mut cycles);
    looks::past_all(&g.by, &cycles[..n], other, hues, same, up, c)
}

// The same, where it can gain: not in small spans, nor where the lists are long. Where no edge is left the whole span is settled.
fn left_settled(
    g: &Graph<'_>,
    v: bool,
    up: u8,
    c: u8,
    e: u64,
    other: &[u64],
    hues: &[u8],
    same: &[u64],
) -> u8
    requires other { (hues.now ≡ map (table_colours g.now.by) other.now) × (up ≤ c) }
    ensures settled { (p : Policy) → PartsOf p g.now.policy.now.states g.now.policy.now.letters g.now.policy.now.target g.now.out g.now.into g.now.by → g.now.policy.now.family ≡ p.family → inside (colours_of p e) c ≡ true → Settled p v up c e other.now same.now result }
    ensures left { (up ≤ result) × (result ≤ c) }
{
    if e == 0 {
        return up;
    }
    if c - up < 7 {
        return c;
    }
    if looks::are_long(other.len(), same.len()) {
        return c;
    }
    past_settled(g, v, up, c, e, other, hues, same)
}

// The list of one verdict after a set: how many masks it holds, the edges that have the cycles of the set, and of its span those below `left` are left.
#[derive(Clone, Copy)]
struct Side {
    cycles: Cycles,
    left: u8,
}

// A set c with the verdict v, for the lists of its verdict and of the other one: the wanted ones of its cycles, which are looked for in m, are listed.
fn list_side(
    g: &Graph<'_>,
    v: bool,
    up: u8,
    c: u8,
    m: u64,
    other: &[u64],
    hues: &[u8],
    same: &mut [u64],
    own: &mut [u8],
    live: &mut [u64],
    count: usize,
) -> Side
    requires other { hues.now ≡ map (table_colours g.now.by) other.now }
    requires room { Hued (table_colours g.now.by) same.old own.old count × (count + 16 ≤ length same.old) × (count + 16 ≤ length own.old) }
    requires live { (c < length live.old) × (up ≤ c) }
    ensures masks { (p : Policy) → PartsOf p g.now.policy.now.states g.now.policy.now.letters g.now.policy.now.target g.now.out g.now.into g.now.by → take result.cycles.count same.new ≡ with_cycles (table_colours g.now.by) c other.now (take count same.old) (largest_in p m) }
    ensures hues { Hued (table_colours g.now.by) same.new own.new result.cycles.count }
    ensures edges { ((p : Policy) → PartsOf p g.now.policy.now.states g.now.policy.now.letters g.now.policy.now.target g.now.out g.now.into g.now.by → OnCycles p m result.cycles.edges) × (live.new ≡ set live.old c result.cycles.edges) }
    ensures settled { (p : Policy) → PartsOf p g.now.policy.now.states g.now.policy.now.letters g.now.policy.now.target g.now.out g.now.into g.now.by → g.now.policy.now.family ≡ p.family → inside (colours_of p result.cycles.edges) c ≡ true → Settled p v up c result.cycles.edges other.now (take result.cycles.count same.new) result.left }
    ensures left { (up ≤ result.left) × (result.left ≤ c) }
{
    let cycles = list_wanted(g, c, m, other, hues, same, own, count);
    live[c as usize] = cycles.edges;
    let listed = &same[..cycles.count];
    let left = left_settled(g, v, up, c, cycles.edges, other, hues, listed);
    Side { cycles, left }
}

// An open set c with the verdict v: the wanted ones of its cycles, which are looked for in m, go into the list of the verdict.
fn list_set(
    g: &Graph<'_>,
    v: bool,
    up: u8,
    c: u8,
    m: u64,
    accepting: &mut [u64],
    accepted: &mut [u8],
    rejecting: &mut [u64],
    rejected: &mut [u8],
    live: &mut [u64],
    listed: Counts,
) -> Step
    requires accepting { Hued (table_colours g.now.by) accepting.old accepted.old listed.accepting × (listed.accepting + 16 ≤ length accepting.old) × (listed.accepting + 16 ≤ length accepted.old) }
    requires rejecting { Hued (table_colours g.now.by) rejecting.old rejected.old listed.rejecting × (listed.rejecting + 16 ≤ length rejecting.old) × (listed.rejecting + 16 ≤ length rejected.old) }
    requires live { (c < length live.old) × (up ≤ c) }
    ensures listed { (p : Policy) (root used : ℕ) → PartsOf p g.now.policy.now.states g.now.policy.now.letters g.now.policy.now.target g.now.out g.now.into g.now.by → g.now.policy.now.family ≡ p.family → used ≡ colours_of p root → c < used → inside c used ≡ true → v ≡ in_family p c → up ≡ upper used c → Live p root c m → inside m (edges_in p c) ≡ true → Listed p g.now.by root (used - 1 - c) accepting.old accepted.old rejecting.old rejected.old live.old listed → Listed p g.now.by root (used - result.left) accepting.new accepted.new rejecting.new rejected.new live.new result.counts }
    ensures left { result.left ≤ c }
{
    let a = listed.accepting;
    let b = listed.rejecting;
    if v {
        let n = list_side(
            g,
            v,
            up,
            c,
            m,
            &rejecting[..b],
            &rejected[..b],
            accepting,
            accepted,
            live,
            a,
        );
        return Step {
            counts: Counts {
                accepting: n.cycles.count,
                rejecting: b,
            },
            left: n.left,
        };
    }
    let n = list_side(
        g,
        v,
        up,
        c,
        m,
        &accepting[..a],
        &accepted[..a],
        rejecting,
        rejected,
        live,
        b,
    );
    Step {
        counts: Counts {
            accepting: a,
            rejecting: n.cycles.count,
        },
        left: n.left,
    }
}

// The next set c below the colours `used` of the root. A set that is not open is passed, and its span with it where that can be told; where the span is large its live edges are
// looked for all the same. Where the live edges lack a colour, the sets with that colour are passed.
fn list_next(
    g: &Graph<'_>,
    used: u8,
    c: u8,
    accepting: &mut [u64],
    accepted: &mut [u8],
    rejecting: &mut [u64],
    rejected: &mut [u8],
    live: &mut [u64],
    listed: Counts,
) -> Step
    requires accepting { Hued (table_colours g.now.by) accepting.old accepted.old listed.accepting × (listed.accepting + 16 ≤ length accepting.old) × (listed.accepting + 16 ≤ length accepted.old) }
    requires rejecting { Hued (table_colours g.now.by) rejecting.old rejected.old listed.rejecting × (listed.rejecting + 16 ≤ length rejecting.old) × (listed.rejecting + 16 ≤ length rejected.old) }
    requires live { (c < used) × (used < length live.old) }
    ensures listed { (p : Policy) (root : ℕ) → PartsOf p g.now.policy.now.states g.now.policy.now.letters g.now.policy.now.target g.now.out g.now.into g.now.by → g.now.policy.now.family ≡ p.family → used ≡ colours_of p root → Listed p g.now.by root (used - 1 - c) accepting.old accepted.old rejecting.old rejected.old live.old listed → Listed p g.now.by root (used - result.left) accepting.new accepted.new rejecting.new rejected.new live.new result.counts }
    ensures left { result.left ≤ c }
{
    if !masks::inside(c, used) {
        return Step {
            counts: listed,
            left: c,
        };
    }
    let a = listed.accepting;
    let b = listed.rejecting;
    let v = g.policy.family[c as usize];
    let up = looks::upper(used, c);
    let open = looks::is_open_for(v, c, &accepted[..a], &rejected[..b]);
    if !open {
        if looks::is_passed(
            &g.by,
            &g.policy.family,
            v,
            up,
            c,
            &accepted[..a],
            &rejected[..b],
        ) {
            return Step {
                counts: listed,
                left: up,
            };
        }
        if c - up < 15 {
            return Step {
                counts: listed,
                left: c,
            };
        }
    }
    let m = looks::edges_of(&g.by, live, used, c);
    let hue = policy::colours_in(&g.by, m);
    if !masks::inside(up, hue) {
        return Step {
            counts: listed,
            left: up,
        };
    }
    if hue < c {
        live[hue as usize] = masks::both(live[hue as usize], m);
        return Step {
            counts: listed,
            left: hue + 1,
        };
    }
    if open {
        return list_set(
            g, v, up, c, m, accepting, accepted, rejecting, rejected, live, listed,
        );
    }
    let edges = edges_on_cycles(g, m);
    live[c as usize] = edges;
    Step {
        counts: listed,
        left: left_after(edges, up, c),
    }
}

// The sets to look at are those below: all sets below the colours `used` of the root, or none where all that cycles can have share its verdict. Few
// are not looked at.
fn sets_left(g: &Graph<'_>, used: u8) -> u8
    ensures { (result ≡ used) ⊎ ((result ≡ 0) × ((s : ℕ) → s < used → inside s used ≡ true → ((s ≡ 0) × (get_or g.now.by 8 0 ≡ 0)) ⊎ (get_or g.now.policy.now.family s false ≡ get_or g.now.policy.now.family used false))) }
{
    if used < 16 {
        return used;
    }
    let family = &g.policy.family;
    let from = looks::first_from(&g.by, 0);
    if looks::is_uniform(family, from, used, family[used as usize]) {
        return 0;
    }
    used
}

// The sets left below `left`, but for some that are not of the colours `used`: where `left` is of these, the next one below is one less, with what it has of them.
fn next_left(used: u8, left: u8) -> u8
    ensures { (result ≤ left) × ((x : ℕ) → result ≤ x → x < left → inside x used ≡ false) }
{
    if (0 < left) & masks::inside(left, used) {
        return ((left - 1) & used) + 1;
    }
    left
}

// The root alone is listed.
fn begin(
    g: &Graph<'_>,
    root: u64,
    accepting: &mut [u64],
    accepted: &mut [u8],
    rejecting: &mut [u64],
    rejected: &mut [u8],
) -> Counts
    requires { (0 < length accepting.old) × (0 < length accepted.old) × (0 < length rejecting.old) × (0 < length rejected.old) }
    ensures { (p : Policy) → legal p ≡ true → g.now.by ≡ by_colour p → g.now.policy.now.family ≡ p.family → (live : List ℕ) → ((d : ℕ) → d < length live → get_or live d 0 ≡ root) → Listed p g.now.by root 0 accepting.new accepted.new rejecting.new rejected.new live result }
{
    let used = policy::colours_in(&g.by, root);
    if g.policy.family[used as usize] {
        accepting[0] = root;
        accepted[0] = used;
        return Counts {
            accepting: 1,
            rejecting: 0,
        };
    }
    rejecting[0] = root;
    rejected[0] = used;
    Counts {
        accepting: 0,
        rejecting: 1,
    }
}

// Whether a list may have no room for a cycle of each state.
fn lacks_room(accepting: usize, rejecting: usize, listed: Counts) -> bool
    requires { (listed.accepting ≤ accepting) × (listed.rejecting ≤ rejecting) }
    ensures { result ≡ lacks_room accepting rejecting listed }
{
    (accepting - listed.accepting < 16) | (rejecting - listed.rejecting < 16)
}

// The candidates of a root, each list by falling masks of their colours and then by their lowest states. Where a list may have no room for the next set, the listing ends before
// it and is not whole. Places past the masks are undecided.
fn fill_lists(
    g: &Graph<'_>,
    root: u64,
    accepting: &mut [u64],
    accepted: &mut [u8],
    rejecting: &mut [u64],
    rejected: &mut [u8],
    live: &mut [u64],
) -> Listing
    requires policy { (p : Policy) × PartsOf p g.now.policy.now.states g.now.policy.now.letters g.now.policy.now.target g.now.out g.now.into g.now.by × (g.now.policy.now.family ≡ p.family) × Memᴰ root (roots p) }
    requires places { (0 < length accepting.old) × (length accepted.old ≡ length accepting.old) × (0 < length rejecting.old) × (length rejected.old ≡ length rejecting.old) }
    requires live { (table_colours g.now.by root < length live.old) × ((d : ℕ) → d < length live.old → get_or live.old d 0 ≡ root) }
    ensures { (p : Policy) → PartsOf p g.now.policy.now.states g.now.policy.now.letters g.now.policy.now.target g.now.out g.now.into g.now.by → g.now.policy.now.family ≡ p.family → Memᴰ root (roots p) → Outcome p root accepting.new rejecting.new result.whole result.counts }
{
    // The edges of each colour are copied: of a table that is lent the compiler read an entry only behind a test of its colour.
    let own = Graph {
        policy: g.policy,
        out: g.out,
        into: g.into,
        by: g.by,
    };
    let used = policy::colours_in(&own.by, root);
    let mut listed = begin(&own, root, accepting, accepted, rejecting, rejected);
    let mut left = sets_left(&own, used);
    while 0 < left {
        if lacks_room(accepting.len(), rejecting.len(), listed) {
            return Listing {
                counts: listed,
                whole: false,
            };
        }
        let step = list_next(
            &own,
            used,
            left - 1,
            accepting,
            accepted,
            rejecting,
            rejected,
            live,
            listed,
        );
        listed = step.counts;
        left = next_left(used, step.left);
    }
    Listing {
        counts: listed,
        whole: true,
    }
}

// The same, with space for the live edges of each set of the root's colours. This is an inner layer: its callers lend one of the roots. What is
// promised holds of every policy with the parts of g.
pub fn fill_candidates(
    g: &Graph<'_>,
    root: u64,
    accepting: &mut [u64],
    accepted: &mut [u8],
    rejecting: &mut [u64],
    rejected: &mut [u8],
) -> Listing
    requires policy { (p : Policy) × PartsOf p g.now.policy.now.states g.now.policy.now.letters g.now.policy.now.target g.now.out g.now.into g.now.by × (g.now.policy.now.family ≡ p.family) × Memᴰ root (roots p) }
    requires places { (0 < length accepting.old) × (length accepted.old ≡ length accepting.old) × (0 < length rejecting.old) × (length rejected.old ≡ length rejecting.old) }
    ensures { (p : Policy) → PartsOf p g.now.policy.now.states g.now.policy.now.letters g.now.policy.now.target g.now.out g.now.into g.now.by → g.now.policy.now.family ≡ p.family → Memᴰ root (roots p) → Outcome p root accepting.new rejecting.new result.whole result.counts }
{
    if policy::colours_in(&g.by, root) < 16 {
        let mut live = [root; 16];
        return fill_lists(g, root, accepting, accepted, rejecting, rejected, &mut live);
    }
    let mut live = [root; 256];
    fill_lists(g, root, accepting, accepted, rejecting, rejected, &mut live)
}
