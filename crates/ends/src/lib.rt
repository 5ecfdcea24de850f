// Where the descendants of each node end, from the parents of the nodes.
#![tactic(auto)]

ghost use Rattle.std.specs.Prelude.{◌≡◌, true, ◌≤◌, ◌<◌, length};
ghost use Rattle.std.proofs.lemmas.List.Edits.{sets};
ghost use Rattle.tables.specs.Tables.{Column};
ghost use Rattle.policy.specs.Policies.{legal};
ghost use Rattle.forest.specs.Forest.{forest, node_parents};
ghost use Rattle.automaton.specs.Stages.{node_ends};
ghost use Rattle.ends.specs.Raising.{successors, raised_to};

use policy::Policy;

// Each node ends right after itself.
fn fill_own(count: usize, ends: &mut [u16])
    requires { (count ≤ 65535) × (count ≤ length ends.old) }
    ensures { ends.new ≡ sets ends.old 0 (successors count) }
{
    for n in 0..count {
        ends[n] = (n + 1) as u16;
    }
}

// What stands at `up` is raised to what stands at n.
fn raise(ends: &mut [u16], up: usize, n: usize)
    requires { (up < length ends.old) × (n < length ends.old) }
    ensures { ends.new ≡ raised_to ends.old up n }
{
    let end = ends[n];
    if ends[up] < end {
        ends[up] = end;
    }
}

// The end of each node, from the front of `ends`: from the last node down, each raises the end of its parent. Inner layer: the parents are those of a legal
// policy's forest, and `ends` has a place for each node.
pub fn fill_ends(p: &Policy, parents: &[u16], count: usize, ends: &mut [u16])
    requires nodes { (legal p.now ≡ true) × (length (forest p.now) ≤ 65535) × Column (node_parents p.now) parents.now × (count ≡ length (forest p.now)) }
    requires room { count ≤ length ends.old }
    ensures { ends.new ≡ sets ends.old 0 (node_ends p.now) }
{
    fill_own(count, ends);
    for n in (0..count).rev() {
        let up = parents[n] as usize;
        if up != 65535 {
            raise(ends, up, n);
        }
    }
}
