// The built states: for each policy state its leaves by number, or 65,535 where it is in no cycle.
#![tactic(auto)]

ghost use Rattle.std.specs.Prelude.{◌≡◌, true, cond, [], ◌∷◌, ◌+◌, ◌-◌, ◌≤◌, ◌<◌, length, set, replicate};
ghost use Rattle.std.proofs.lemmas.List.Edits.{sets};
ghost use Rattle.tables.specs.Tables.{Column, Stored};
ghost use Rattle.policy.specs.Policies.{legal};
ghost use Rattle.forest.specs.Forest.{forest, node_masks};
ghost use Rattle.automaton.specs.Automaton.{built, start};
ghost use Rattle.automaton.specs.Stages.{node_ends, state_starts};
ghost use Rattle.states.specs.StateTables.{leaves_below, leaves_over, StatesFilled};

use policy::Policy;

// A legal policy and what the states are made from: how many nodes its forest has, their masks and ends.
#[derive(Clone, Copy)]
pub struct Nodes<'a> {
    pub policy: &'a Policy,
    pub masks: &'a [u64],
    pub ends: &'a [u16],
    pub count: usize,
    ghost lawful: { legal policy.now ≡ true },
    ghost few: { length (forest policy.now) ≤ 65535 },
    ghost masked: { Column (node_masks policy.now) masks.now },
    ghost ended: { Column (node_ends policy.now) ends.now },
    ghost counted: { count ≡ length (forest policy.now) },
}

// x in its place, if the table has it.
fn put<T: Copy>(t: &mut [T], at: usize, x: T)
    ensures { t.new ≡ set t.old at x }
{
    if at < t.len() {
        t[at] = x;
    }
}

// x in its place if b holds; the place after.
fn put_leaf_if(t: &mut [u16], at: usize, x: usize, b: bool) -> usize
    requires { (x < 65536) × (at ≤ 1114111) }
    ensures { Stored t.old t.new at result (cond b (x ∷ []) []) }
{
    if b {
        put(t, at, x as u16);
        return at + 1;
    }
    at
}

// The leaves of v, from `at` on; the place after them. A node stands before its descendants, and lies inside its parent: so the last node seen that
// contains v is a leaf of v if the next one that contains v is past the end of its descendants, or if there is none. While none is seen, `last` is
// 65,535, and `end` past every node. There are at most 16 times 65,536 built states, so a place never overflows; those past the end of the table are
// counted, and not written.
fn fill_leaves(nodes: &Nodes<'_>, v: usize, at: usize, leaves: &mut [u16]) -> usize
    requires { (v < nodes.now.policy.now.states) × (at ≤ 1048576) }
    ensures { Stored leaves.old leaves.new at result (leaves_below nodes.now.policy.now v nodes.now.count) × (result ≤ at + 65535) }
{
    let masks = nodes.masks;
    let ends = nodes.ends;
    let own = graph::own_edges(nodes.policy.letters as usize, v);
    let mut next = at;
    // No Option: it would be a second test in the loop.
    let mut last: usize = 65535;
    let mut end: usize = 65536;
    for n in 0..nodes.count {
        if masks[n] & own != 0 {
            next = put_leaf_if(leaves, next, last, end <= n);
            last = n;
            end = ends[n] as usize;
        }
    }
    put_leaf_if(leaves, next, last, last != 65535)
}

// The leaves of the states over v: 65,535 alone where v is in no cycle.
fn fill_over(nodes: &Nodes<'_>, v: usize, at: usize, leaves: &mut [u16]) -> usize
    requires { (v < nodes.now.policy.now.states) × (at ≤ 1048576) }
    ensures { Stored leaves.old leaves.new at result (leaves_over nodes.now.policy.now v) × (result ≤ at + 65536) }
{
    let next = fill_leaves(nodes, v, at, leaves);
    if next == at {
        put(leaves, at, 65535u16);
        return at + 1;
    }
    next
}

// Policy state v, from `from` up to `to`. By index, since the places past the table are passed over.
fn fill_sources(sources: &mut [u8], from: usize, to: usize, v: usize)
    requires { (from ≤ to) × (v < 256) }
    ensures { sources.new ≡ sets sources.old from (replicate (to - from) v) }
{
    for i in from..to {
        put(sources, i, v as u8);
    }
}

// The built states by policy state and then by leaf, and how many they are; none where they do not fit. The tables are cleared past them, and everywhere if they do not
// fit. Where those over each policy state begin stands in `starts`; the last start is the end of all.
pub fn fill_states(
    nodes: &Nodes<'_>,
    sources: &mut [u8],
    leaves: &mut [u16],
    starts: &mut [usize; 17],
) -> Option<usize>
    requires { length sources.old ≡ length leaves.old }
    ensures { StatesFilled nodes.now.policy.now sources.old leaves.old starts.old result sources.new leaves.new starts.new }
{
    let states = nodes.policy.states as usize;
    starts[0] = 0;
    let mut at: usize = 0;
    for v in 0..states {
        let next = fill_over(nodes, v, at, leaves);
        fill_sources(sources, at, next, v);
        starts[v + 1] = next;
        at = next;
    }
    if (at <= sources.len()) & (at <= 65535) {
        tables::clear_past(sources, at);
        tables::clear_past(leaves, at);
        return Some(at);
    }
    tables::clear(sources);
    tables::clear(leaves);
    None
}

// The start: the first state over the initial one. Inner layer: the starts are those of a legal policy.
pub fn start_of(p: &Policy, starts: &[usize; 17]) -> u16
    requires { (legal p.now ≡ true) × Column (state_starts p.now) starts.now × (length (built p.now) ≤ 65535) }
    ensures { result ≡ start p.now }
{
    starts[p.initial as usize] as u16
}
