// The automaton's tables from the node tables: the ends of the nodes, the built states and their rows. Inner layer: the tables
// have lengths that belong together.
// Each stage reads and writes tables of the caller, so some functions have many parameters.
// A struct of the four built tables would be no plainer: each contract would also have to say that its references stay.
#![tactic(auto)]

ghost use Rattle.std.specs.Prelude.{◌≡◌, ◌≤◌, length};
ghost use Rattle.tables.specs.Tables.{zeros};
ghost use Rattle.policy.specs.declared.Policy.{Policy};
ghost use Rattle.forest.specs.Forest.{forest};
ghost use Rattle.filling.specs.Filling.{Sized, Builds};

use automaton::Forest;
use rows::States;

// How many built states there are, and the start.
#[derive(Clone, Copy)]
pub struct Building {
    pub states: usize,
    pub start: u16,
}

// 0 in every place.
pub fn clear_built(
    sources: &mut [u8],
    leaves: &mut [u16],
    targets: &mut [u16],
    priorities: &mut [u8],
)
    ensures { (sources.new ≡ zeros sources.old) × (leaves.new ≡ zeros leaves.old) × (targets.new ≡ zeros targets.old) × (priorities.new ≡ zeros priorities.old) }
{
    tables::clear(sources);
    tables::clear(leaves);
    tables::clear(targets);
    tables::clear(priorities);
}

// The states and the rows, with a table for the nodes' ends that has a place for each node; and 0 past them. Where the states do not fit, every place is 0.
fn fill_built(
    nodes: &Forest<'_>,
    count: usize,
    ends: &mut [u16],
    sources: &mut [u8],
    leaves: &mut [u16],
    targets: &mut [u16],
    priorities: &mut [u8],
) -> Option<Building>
    requires nodes { count ≡ length (forest nodes.now.policy.now) }
    requires room { Sized nodes.now.policy.now sources.old leaves.old targets.old priorities.old × (count ≤ length ends.old) }
    ensures { Builds nodes.now.policy.now sources.old leaves.old targets.old priorities.old result sources.new leaves.new targets.new priorities.new }
{
    let p = nodes.policy;
    ends::fill_ends(p, nodes.parents, count, ends);
    let ended = states::Nodes {
        policy: p,
        masks: nodes.masks,
        ends: &*ends,
        count,
    };
    let mut starts = [0usize; 17];
    let Some(states) = states::fill_states(&ended, sources, leaves, &mut starts) else {
        tables::clear(targets);
        tables::clear(priorities);
        return None;
    };
    let start = states::start_of(p, &starts);
    let built = States {
        forest: nodes,
        ends: &*ends,
        leaves: &*leaves,
        starts: &starts,
        count: states,
    };
    rows::fill_rows(&built, targets, priorities);
    Some(Building { states, start })
}

// The same with the table for the nodes' ends that is lent, where it has a place for each node, and otherwise with a longer one. A call that calls itself keeps
// the longest table out of its own frame, so that few nodes take little space.
#[cycle(build_large_build_within)]
fn build_within(
    nodes: &Forest<'_>,
    count: usize,
    ends: &mut [u16],
    sources: &mut [u8],
    leaves: &mut [u16],
    targets: &mut [u16],
    priorities: &mut [u8],
) -> Option<Building>
    requires nodes { count ≡ length (forest nodes.now.policy.now) }
    requires room { Sized nodes.now.policy.now sources.old leaves.old targets.old priorities.old }
    ensures { Builds nodes.now.policy.now sources.old leaves.old targets.old priorities.old result sources.new leaves.new targets.new priorities.new }
{
    if count <= ends.len() {
        return fill_built(nodes, count, ends, sources, leaves, targets, priorities);
    }
    if count <= 2048 {
        let mut more = [0u16; 2048];
        return build_within(
            nodes, count, &mut more, sources, leaves, targets, priorities,
        );
    }
    build_large(nodes, count, sources, leaves, targets, priorities)
}

// The same with a table for as many nodes as there can be.
#[cycle(build_large_build_within)]
fn build_large(
    nodes: &Forest<'_>,
    count: usize,
    sources: &mut [u8],
    leaves: &mut [u16],
    targets: &mut [u16],
    priorities: &mut [u8],
) -> Option<Building>
    requires nodes { count ≡ length (forest nodes.now.policy.now) }
    requires room { Sized nodes.now.policy.now sources.old leaves.old targets.old priorities.old }
    ensures { Builds nodes.now.policy.now sources.old leaves.old targets.old priorities.old result sources.new leaves.new targets.new priorities.new }
{
    let mut ends = [0u16; 65535];
    build_within(
        nodes, count, &mut ends, sources, leaves, targets, priorities,
    )
}

// The stages after the nodes, of which there are `count`. Where the built states do not fit, every place is 0. For few nodes a small table of ends serves, which is quicker
// to lay out.
pub fn build(
    nodes: &Forest<'_>,
    count: usize,
    sources: &mut [u8],
    leaves: &mut [u16],
    targets: &mut [u16],
    priorities: &mut [u8],
) -> Option<Building>
    requires nodes { count ≡ length (forest nodes.now.policy.now) }
    requires room { Sized nodes.now.policy.now sources.old leaves.old targets.old priorities.old }
    ensures { Builds nodes.now.policy.now sources.old leaves.old targets.old priorities.old result sources.new leaves.new targets.new priorities.new }
{
    let mut ends = [0u16; 64];
    if count <= 64 {
        return fill_built(
            nodes, count, &mut ends, sources, leaves, targets, priorities,
        );
    }
    build_within(
        nodes, count, &mut ends, sources, leaves, targets, priorities,
    )
}
