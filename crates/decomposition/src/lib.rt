// The alternating cycle decomposition of a policy: the node tables, with the nodes of the forest, tree by tree, and their priorities.
#![tactic(auto)]

ghost use Rattle.std.specs.Prelude.{◌≡◌, true, false, cond, ◌+◌, ◌-◌, ◌*◌, ◌≤◌, length, take};
ghost use Rattle.policy.specs.Policies.{accepting, legal};
ghost use Rattle.lists.specs.Lists.{greatest};
ghost use Rattle.tables.specs.Tables.{padded, Column};
ghost use Rattle.tables.specs.Copies.{part};
ghost use Rattle.forest.specs.Forest.{forest, from_zero, transient_priority, node_parents, node_priorities_of};
ghost use Rattle.decomposition.specs.FromZero.{plain_priorities, some_accepting};
ghost use Rattle.decomposition.specs.NodeTables.{NodeColumns, node_tables, Fills};

use graph::Graph;
use policy::Policy;

// How many nodes there are, and the lowest priority of them, which an edge in no cycle has.
#[derive(Clone, Copy)]
pub struct Filled {
    pub count: usize,
    pub transient: u8,
}

// The priority of a root goes by its verdict, where priorities begin at 0.
fn root_priority(g: &Graph<'_>, m: u64) -> u8
    ensures { result ≡ cond (accepting g.now.policy.now m) 0 1 }
{
    u8::from(!policy::accepts(g.policy, &g.by, m))
}

// The greatest of the entries from place `from` up to `to`.
fn greatest_in(t: &[u8], from: usize, to: usize) -> u8
    requires { (from ≤ to) × (to ≤ length t.now) }
    ensures { result ≡ greatest (part (to - from) from t.now) }
{
    let mut most: u8 = 0;
    for &x in &t[from..to] {
        most = most.max(x);
    }
    most
}

// Twice a node's level, and 3 more in an accepting tree or 2 in a rejecting one: by its priority as if they began at 0, and its root's.
fn height(priority: u8, root: u8) -> u8
    requires { (priority ≤ 100) × (root ≤ 1) }
    ensures { result ≡ 2 * priority + (3 - 3 * root) }
{
    2 * priority + (3 - 3 * root)
}

// Whether priorities begin at 0, and whether some root is accepting.
#[derive(Clone, Copy)]
struct Beginning {
    from_zero: bool,
    accepting: bool,
}

// The priorities of all nodes as if they began at 0, in a table that is cleared past them: a child's is one more than its parent's. Trees in a row whose roots have
// one verdict are looked at together, and only if a root of the other verdict is met: those at hand begin at node `first`, their roots have priority `root`, and `most`
// is the greatest height before them. Priorities begin at 0 exactly if the greatest height is odd.
fn number_from_zero(
    g: &Graph<'_>,
    masks: &[u64],
    parents: &[u16],
    node_priorities: &mut [u8],
    count: usize,
) -> Beginning
    requires nodes { NodeColumns g.now.policy.now masks.now parents.now count }
    requires cleared { (count ≤ length node_priorities.old) × (node_priorities.old ≡ padded (length node_priorities.old) (take count node_priorities.old)) }
    ensures beginning { (result.from_zero ≡ from_zero g.now.policy.now) × (result.accepting ≡ some_accepting g.now.policy.now) }
    ensures table { node_priorities.new ≡ padded (length node_priorities.old) (plain_priorities g.now.policy.now) }
{
    let mut most: u8 = 0;
    let mut first: usize = 0;
    let mut root: u8 = 1;
    // By index: a node reads its parent's entry.
    for n in 0..count {
        let parent = parents[n];
        let mut priority: u8 = 0;
        if parent == 65535 {
            priority = root_priority(g, masks[n]);
            if priority != root {
                most = most.max(height(greatest_in(node_priorities, first, n), root));
                first = n;
                root = priority;
            }
        } else {
            priority = node_priorities[parent as usize] + 1;
        }
        node_priorities[n] = priority;
    }
    if first == 0 {
        return Beginning {
            from_zero: root == 0,
            accepting: root == 0,
        };
    }
    let top = most.max(height(greatest_in(node_priorities, first, count), root));
    Beginning {
        from_zero: top % 2 == 1,
        accepting: true,
    }
}

// Two more for each node of a tree whose root has 0, where priorities begin at 1.
fn raise(p: &Policy, parents: &[u16], node_priorities: &mut [u8], count: usize)
    requires lawful { (legal p.now ≡ true) × (from_zero p.now ≡ false) }
    requires nodes { (count ≡ length (forest p.now)) × (count ≤ 65535) × Column (node_parents p.now) parents.now }
    requires table { (count ≤ length node_priorities.old) × (node_priorities.old ≡ padded (length node_priorities.old) (plain_priorities p.now)) }
    ensures { node_priorities.new ≡ padded (length node_priorities.old) (node_priorities_of p.now) }
{
    let mut more: u8 = 0;
    // By index: two tables, side by side.
    for n in 0..count {
        let priority = node_priorities[n];
        if parents[n] == 65535 {
            more = if priority == 0 { 2 } else { 0 };
        }
        node_priorities[n] = priority + more;
    }
}

// The priorities of all nodes, in a table that is cleared past them. Given back: the lowest of them.
fn write_priorities(
    g: &Graph<'_>,
    masks: &[u64],
    parents: &[u16],
    node_priorities: &mut [u8],
    count: usize,
) -> u8
    requires nodes { NodeColumns g.now.policy.now masks.now parents.now count }
    requires cleared { (count ≤ length node_priorities.old) × (node_priorities.old ≡ padded (length node_priorities.old) (take count node_priorities.old)) }
    ensures lowest { result ≡ transient_priority g.now.policy.now }
    ensures table { node_priorities.new ≡ padded (length node_priorities.old) (node_priorities_of g.now.policy.now) }
{
    let begins = number_from_zero(g, masks, parents, node_priorities, count);
    if begins.from_zero {
        return 0;
    }
    if !begins.accepting {
        return 1;
    }
    raise(g.policy, parents, node_priorities, count);
    1
}

// The nodes of the forest, in tables of one length. Where they do not fit, every place is 0. This is an inner layer: its callers have asked whether the policy is legal.
pub fn fill_nodes(
    p: &Policy,
    masks: &mut [u64],
    parents: &mut [u16],
    node_priorities: &mut [u8],
) -> Option<Filled>
    requires { (legal p.now ≡ true) × (length parents.old ≡ length masks.old) × (length node_priorities.old ≡ length masks.old) }
    ensures { Fills p.now (node_tables masks.old parents.old node_priorities.old) result (node_tables masks.new parents.new node_priorities.new) }
{
    let g = Graph::new(p);
    let count = columns::fill_columns(&g, masks, parents);
    if tables::places(masks.len()) < count {
        tables::clear(node_priorities);
        return None;
    }
    tables::clear_past(masks, count);
    tables::clear_past(parents, count);
    tables::clear_past(node_priorities, count);
    let transient = write_priorities(&g, masks, parents, node_priorities, count);
    Some(Filled { count, transient })
}
