// The children of a node, found from the node itself: colours are taken away, and what is left falls into the largest cycles of a colour set. One of the other verdict is a child, or
// lies inside one; one of the node's verdict loses colours in turn. Sets are looked at by falling mask, so that a cycle comes after those that it lies in.
#![tactic(auto)]

ghost use Rattle.std.specs.Prelude.{◌≡◌, ℕ, ◌+◌, ◌*◌, ◌≤◌, ◌<◌, length};
ghost use Rattle.policy.specs.declared.Policy.{Policy};
ghost use Rattle.policy.specs.Policies.{colours_of};
ghost use Rattle.full_cycles.specs.Full.{Full};
ghost use Rattle.siblings.specs.Positions.{Positions};
ghost use Rattle.pool.specs.Pool.{PartsOf, Pool};
ghost use Rattle.pool.specs.Graphs.{policy_in};
ghost use Rattle.offspring.specs.Offspring.{Around as IsAround, StatesIn, Offspring};
ghost use Rattle.offspring.specs.Looking.{Looking, Looked, Node, NodeAmong, Span, Greatest, NowListed, SetSearched};

use collections::Around;
use pool::RootGraph;

// A node of the tree of a root, the verdict of its children, and the colour sets with a set of that verdict inside.
#[derive(Drop)]
pub struct Parent<'a> {
    pub root: &'a RootGraph<'a>,
    pub mask: u64,
    pub verdict: bool,
    pub within: &'a [u64; 4],
}

// The cycle at position i, one of the set s: it is passed, or found, or its colours are to be looked at, or sets with one colour fewer. None where there is no place for it.
fn look_at(
    node: &Parent<'_>,
    s: u8,
    pool: &[u64],
    hues: &[u8],
    i: usize,
    todo: &mut [u64; 4],
    kids: &mut [u16],
    found: usize,
) -> Option<usize>
    requires places { (i < length pool.now) × (length hues.now ≡ length pool.now) × (length pool.now ≤ 4096) × Positions pool.now kids.old found × (length todo.old ≡ 4) }
    requires room { (p : Policy) × (count : ℕ) × (to : ℕ) × Node p (policy_in node.now.root.now).family node.now.within.now node.now.mask node.now.verdict × Span p node.now.mask s pool.now hues.now count i to × (i < to) × Looking p node.now.mask pool.now count s i to todo.old kids.old found }
    ensures { (p : Policy) (count to : ℕ) → Node p (policy_in node.now.root.now).family node.now.within.now node.now.mask node.now.verdict → Span p node.now.mask s pool.now hues.now count i to → i < to → Looking p node.now.mask pool.now count s i to todo.old kids.old found → Looked p node.now.mask pool.now count s (i + 1) to todo.new kids.new result }
{
    let x = pool[i];
    if !masks::inside(x, node.mask) {
        return Some(found);
    }
    if !siblings::is_outside(pool, kids, found, x) {
        return Some(found);
    }
    let h = hues[i];
    let verdict = node.root.graph.policy.family[h as usize];
    if verdict != node.verdict {
        collections::add_smaller(node.within, h, todo);
        return Some(found);
    }
    if h == s {
        if kids.len() <= found {
            return None;
        }
        siblings::insert(pool, kids, found, i);
        return Some(found + 1);
    }
    collections::add_if(todo, h, true);
    Some(found)
}

// The cycles at the positions from one up to another, those of the set s.
fn look_through(
    node: &Parent<'_>,
    s: u8,
    pool: &[u64],
    hues: &[u8],
    from: usize,
    to: usize,
    todo: &mut [u64; 4],
    kids: &mut [u16],
    found: usize,
) -> Option<usize>
    requires places { (length hues.now ≡ length pool.now) × (length pool.now ≤ 4096) }
    requires span { (p : Policy) × (count : ℕ) × Node p (policy_in node.now.root.now).family node.now.within.now node.now.mask node.now.verdict × Span p node.now.mask s pool.now hues.now count from to × Looking p node.now.mask pool.now count s from to todo.old kids.old found }
    ensures { (p : Policy) (count : ℕ) → Node p (policy_in node.now.root.now).family node.now.within.now node.now.mask node.now.verdict → Span p node.now.mask s pool.now hues.now count from to → Looking p node.now.mask pool.now count s from to todo.old kids.old found → Looked p node.now.mask pool.now count s 0 0 todo.new kids.new result }
{
    let mut next = found;
    for i in from..to {
        next = look_at(node, s, pool, hues, i, todo, kids, next)?;
    }
    Some(next)
}

// The cycles of the set s, unless it is listed: whether the space did.
fn list_new(
    r: &RootGraph<'_>,
    s: u8,
    pool: &mut [u64],
    hues: &mut [u8],
    spans: &mut [u16],
    count: &mut usize,
) -> bool
    requires policy { (p : Policy) × PartsOf p (policy_in r.now).states r.now.steps.now r.now.graph.now.out r.now.graph.now.into r.now.graph.now.by × Pool p r.now.among pool.old hues.old spans.old count.old }
    requires places { (s < 255) × (2 * s + 1 < length spans.old) }
    ensures { (p : Policy) → PartsOf p (policy_in r.now).states r.now.steps.now r.now.graph.now.out r.now.graph.now.into r.now.graph.now.by → Pool p r.now.among pool.old hues.old spans.old count.old → NowListed p r.now.among s pool.old count.old pool.new hues.new spans.new count.new result }
{
    if spans[2 * s as usize + 1] != 0 {
        return true;
    }
    if pool.len() - *count < 16 {
        return false;
    }
    *count = pool::list_set(r, s, pool, hues, spans, *count);
    true
}

// The set s, the greatest one to be looked at.
fn search_set(
    node: &Parent<'_>,
    s: u8,
    pool: &mut [u64],
    hues: &mut [u8],
    spans: &mut [u16],
    count: &mut usize,
    todo: &mut [u64; 4],
    kids: &mut [u16],
    found: usize,
) -> Option<usize>
    requires policy { (p : Policy) × PartsOf p (policy_in node.now.root.now).states node.now.root.now.steps.now node.now.root.now.graph.now.out node.now.root.now.graph.now.into node.now.root.now.graph.now.by × NodeAmong p node.now.root.now.among (policy_in node.now.root.now).family node.now.within.now node.now.mask node.now.verdict × Pool p node.now.root.now.among pool.old hues.old spans.old count.old × Greatest p node.now.mask s pool.old count.old todo.old kids.old found }
    requires places { (s < 255) × (2 * s + 1 < length spans.old) }
    ensures { (p : Policy) → PartsOf p (policy_in node.now.root.now).states node.now.root.now.steps.now node.now.root.now.graph.now.out node.now.root.now.graph.now.into node.now.root.now.graph.now.by → NodeAmong p node.now.root.now.among (policy_in node.now.root.now).family node.now.within.now node.now.mask node.now.verdict → Pool p node.now.root.now.among pool.old hues.old spans.old count.old → Greatest p node.now.mask s pool.old count.old todo.old kids.old found → SetSearched p node.now.root.now.among node.now.mask s pool.old count.old pool.new hues.new spans.new count.new todo.new kids.new result }
{
    collections::remove(todo, s);
    if !list_new(node.root, s, pool, hues, spans, count) {
        return None;
    }
    let at = 2 * s as usize;
    let from = spans[at] as usize;
    let to = from + spans[at + 1] as usize - 1;
    look_through(node, s, pool, hues, from, to, todo, kids, found)
}

// The positions of the children of a node whose colours are h: sets are looked at until none is left.
fn search_sets(
    node: &Parent<'_>,
    h: u8,
    pool: &mut [u64],
    hues: &mut [u8],
    spans: &mut [u16],
    count: &mut usize,
    kids: &mut [u16],
) -> Option<usize>
    requires policy { (p : Policy) × PartsOf p (policy_in node.now.root.now).states node.now.root.now.steps.now node.now.root.now.graph.now.out node.now.root.now.graph.now.into node.now.root.now.graph.now.by × NodeAmong p node.now.root.now.among (policy_in node.now.root.now).family node.now.within.now node.now.mask node.now.verdict × (h ≡ colours_of p node.now.mask) × Pool p node.now.root.now.among pool.old hues.old spans.old count.old }
    requires places { 2 * h ≤ length spans.old }
    ensures { (p : Policy) → PartsOf p (policy_in node.now.root.now).states node.now.root.now.steps.now node.now.root.now.graph.now.out node.now.root.now.graph.now.into node.now.root.now.graph.now.by → NodeAmong p node.now.root.now.among (policy_in node.now.root.now).family node.now.within.now node.now.mask node.now.verdict → h ≡ colours_of p node.now.mask → Pool p node.now.root.now.among pool.old hues.old spans.old count.old → Offspring p node.now.root.now.among node.now.mask pool.old count.old pool.new hues.new spans.new count.new kids.new result }
{
    let mut todo = [0u64; 4];
    collections::add_smaller(node.within, h, &mut todo);
    let mut found: usize = 0;
    let mut end = collections::end(&todo);
    while 0 < end {
        let s = (end - 1) as u8;
        found = search_set(node, s, pool, hues, spans, count, &mut todo, kids, found)?;
        end = collections::end(&todo);
    }
    Some(found)
}

// The positions of the children of the node n, in sibling order. `around` has the colour sets with an accepted and with a rejected set inside them. None where the space is too short:
// then what stands in `kids` is undecided, and so is what stands past the children. This is an inner layer: its callers lend one of the nodes of a root, and a pool.
pub fn find_children(
    r: &RootGraph<'_>,
    around: &Around,
    n: u64,
    pool: &mut [u64],
    hues: &mut [u8],
    spans: &mut [u16],
    count: &mut usize,
    kids: &mut [u16],
) -> Option<usize>
    requires policy { (p : Policy) × PartsOf p (policy_in r.now).states r.now.steps.now r.now.graph.now.out r.now.graph.now.into r.now.graph.now.by × ((policy_in r.now).family ≡ p.family) × IsAround p around.now.accepted around.now.rejected × Full p n × StatesIn p r.now.among n × (2 * colours_of p n ≤ length spans.old) × Pool p r.now.among pool.old hues.old spans.old count.old }
    ensures { (p : Policy) → PartsOf p (policy_in r.now).states r.now.steps.now r.now.graph.now.out r.now.graph.now.into r.now.graph.now.by → (policy_in r.now).family ≡ p.family → IsAround p around.now.accepted around.now.rejected → Full p n → StatesIn p r.now.among n → Pool p r.now.among pool.old hues.old spans.old count.old → Offspring p r.now.among n pool.old count.old pool.new hues.new spans.new count.new kids.new result }
{
    let h = policy::colours_in(&r.graph.by, n);
    if r.graph.policy.family[h as usize] {
        let accepting = Parent {
            root: r,
            mask: n,
            verdict: false,
            within: &around.rejected,
        };
        return search_sets(&accepting, h, pool, hues, spans, count, kids);
    }
    let rejecting = Parent {
        root: r,
        mask: n,
        verdict: true,
        within: &around.accepted,
    };
    search_sets(&rejecting, h, pool, hues, spans, count, kids)
}
