// The rows of the automaton, edge by edge: the walk up from a leaf to the deepest node with an edge, a search among the states over the edge's target, and the
// leaves that share what was found.
#![tactic(auto)]

ghost use Rattle.std.specs.Prelude.{◌≡◌, ◌+◌, ◌*◌, ◌≤◌, ◌<◌, length, get_or};
ghost use mathlib.Core.List.{Memᴰ};
ghost use Rattle.tables.specs.Tables.{padded, Column};
ghost use Rattle.policy.specs.declared.Policy.{Policy};
ghost use Rattle.policy.specs.Policies.{edges, edge_of, source, target_of};
ghost use Rattle.forest.specs.Forest.{forest};
ghost use Rattle.automaton.specs.Automaton.{or_else, leaves, built, row_targets, row_priorities, state_leaves};
ghost use Rattle.automaton.specs.Stages.{first_over, node_ends, state_starts};
ghost use Rattle.rows.specs.Rows.{Meets, Shares, SharedBy, RowsWritten};

use automaton::Forest;
use std::ops::Range;

// What the rows are made from: a legal policy's forest, the ends of its nodes, the `count` built states by leaf, and where those over each policy state begin.
#[derive(Clone, Copy)]
pub struct States<'a> {
    pub forest: &'a Forest<'a>,
    pub ends: &'a [u16],
    pub leaves: &'a [u16],
    pub starts: &'a [usize; 17],
    pub count: usize,
    ghost ended: { Column (node_ends forest.now.policy.now) ends.now },
    ghost few: { length (built forest.now.policy.now) ≤ 65535 },
    ghost leaved: { Column (state_leaves forest.now.policy.now) leaves.now },
    ghost started: { Column (state_starts forest.now.policy.now) starts.now },
    ghost counted: { count ≡ length (built forest.now.policy.now) },
}

// The places of the states over v.
fn states_over(starts: &[usize; 17], v: usize) -> Range<usize>
    requires { v < 16 }
    ensures { (result.start ≡ get_or starts.now v 0) × (result.end ≡ get_or starts.now (v + 1) 0) }
{
    starts[v]..starts[v + 1]
}

// Where an edge meets the branch of a leaf: the deepest node that has it; the child of that node that leads to the leaf, or the node itself where it is the leaf; the
// node's priority.
#[derive(Clone, Copy)]
struct Meeting {
    node: usize,
    child: usize,
    priority: u8,
}

// From the leaf up to the deepest node that has e, if some node has it.
fn climb(nodes: &Forest<'_>, e: usize, leaf: usize) -> Option<Meeting>
    requires { let p : Policy = nodes.now.policy.now in (e < edges p) × Memᴰ leaf (or_else 65535 (leaves (forest p) p (source p e))) }
    ensures { Meets nodes.now.policy.now e leaf result }
{
    let mut n = leaf;
    let mut child = leaf;
    // No parent is 65,535 in the tables, which is the C interface.
    while n != 65535 {
        if masks::has(nodes.masks[n], e) {
            return Some(Meeting {
                node: n,
                child: child,
                priority: nodes.priorities[n],
            });
        }
        child = n;
        n = nodes.parents[n] as usize;
    }
    None
}

// The row of an edge from every leaf from `from` up to `to`; and the place where the last search ended.
#[derive(Clone, Copy)]
struct Shared {
    from: usize,
    to: usize,
    target: u16,
    priority: u8,
    hint: usize,
}

// The row of e from a leaf, found among the states over its target, which stand in `over`. What stands below the child that leads to the leaf has the same row; and
// where no root has e, all leaves have, with the priority of an edge in no cycle.
fn find(
    states: &States<'_>,
    e: usize,
    leaf: usize,
    met: Option<Meeting>,
    over: &Range<usize>,
    hint: usize,
) -> Shared
    requires place { let p : Policy = states.now.forest.now.policy.now in (e < edges p) × Memᴰ leaf (or_else 65535 (leaves (forest p) p (source p e))) × Meets p e leaf met }
    requires over { let p : Policy = states.now.forest.now.policy.now in (over.now.start ≡ first_over p (target_of p e)) × (over.now.end ≡ first_over p (target_of p e + 1)) }
    ensures { SharedBy states.now.forest.now.policy.now e leaf result.from result.to result.target result.priority }
{
    let entries = states.leaves;
    let ends = states.ends;
    let from = over.start;
    let to = over.end;
    let Some(m) = met else {
        return Shared {
            from: 0,
            to: 65536,
            target: from as u16,
            priority: states.forest.transient,
            hint: hint,
        };
    };
    let node = m.node;
    let child = m.child;
    if child == node {
        let own = search::lower_bound(entries, from, to, node, hint);
        return Shared {
            from: leaf,
            to: leaf + 1,
            target: own as u16,
            priority: m.priority,
            hint: own,
        };
    }
    let end = ends[child] as usize;
    let after = search::lower_bound(entries, from, to, end, hint);
    if after < to {
        if entries[after] < ends[node] {
            return Shared {
                from: child,
                to: end,
                target: after as u16,
                priority: m.priority,
                hint: after,
            };
        }
    }
    let first = search::lower_bound(entries, from, to, node, after);
    Shared {
        from: child,
        to: end,
        target: first as u16,
        priority: m.priority,
        hint: after,
    }
}

// The row of e from a leaf: the last one, where the leaf shares it.
fn share(states: &States<'_>, e: usize, leaf: usize, over: &Range<usize>, last: Shared) -> Shared
    requires place { let p : Policy = states.now.forest.now.policy.now in (e < edges p) × Memᴰ leaf (or_else 65535 (leaves (forest p) p (source p e))) }
    requires over { let p : Policy = states.now.forest.now.policy.now in (over.now.start ≡ first_over p (target_of p e)) × (over.now.end ≡ first_over p (target_of p e + 1)) }
    requires shared { Shares states.now.forest.now.policy.now e last.from last.to last.target last.priority }
    ensures { SharedBy states.now.forest.now.policy.now e leaf result.from result.to result.target result.priority }
{
    if (last.from <= leaf) & (leaf < last.to) {
        return last;
    }
    let met = climb(states.forest, e, leaf);
    find(states, e, leaf, met, over, last.hint)
}

// The rows of the edge of a state v and a letter, by ascending leaf: one for each state over v. No leaf shares the row begun with: an Option of a row would be asked at each.
fn fill_edge(
    states: &States<'_>,
    v: usize,
    letter: usize,
    targets: &mut [u16],
    priorities: &mut [u8],
)
    requires edge { let p : Policy = states.now.forest.now.policy.now in (v < p.states) × (letter < p.letters) }
    requires room { let p : Policy = states.now.forest.now.policy.now in (p.letters * length (built p) ≤ length targets.old) × (p.letters * length (built p) ≤ length priorities.old) }
    ensures { let p : Policy = states.now.forest.now.policy.now in RowsWritten p targets.old priorities.old targets.new priorities.new (edge_of p v letter) (edge_of p v letter + 1) }
{
    let p = states.forest.policy;
    let letters = p.letters as usize;
    let e = v * letters + letter;
    let over = states_over(states.starts, p.target[e] as usize);
    let own = states_over(states.starts, v);
    let mut row = Shared {
        from: 0,
        to: 0,
        target: 0,
        priority: 0,
        hint: over.start,
    };
    for s in own.start..own.end {
        let leaf = states.leaves[s] as usize;
        row = share(states, e, leaf, &over, row);
        let i = s * letters + letter;
        targets[i] = row.target;
        priorities[i] = row.priority;
    }
}

// The rows of the built states, edge by edge: by states, and by letters; and 0 past them. Inner layer: the row tables have a place for each row.
pub fn fill_rows(states: &States<'_>, targets: &mut [u16], priorities: &mut [u8])
    requires { let p : Policy = states.now.forest.now.policy.now in (p.letters * length (built p) ≤ length targets.old) × (p.letters * length (built p) ≤ length priorities.old) }
    ensures targets { targets.new ≡ padded (length targets.old) (row_targets states.now.forest.now.policy.now) }
    ensures priorities { priorities.new ≡ padded (length priorities.old) (row_priorities states.now.forest.now.policy.now) }
{
    let p = states.forest.policy;
    let letters = p.letters as usize;
    for v in 0..p.states as usize {
        for letter in 0..letters {
            fill_edge(states, v, letter, targets, priorities);
        }
    }
    let rows = states.count * letters;
    tables::clear_past(targets, rows);
    tables::clear_past(priorities, rows);
}
