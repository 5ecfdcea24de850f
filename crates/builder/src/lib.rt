// Translating: the questions 7 to 10, then the nodes of the forest, the built states of the parity automaton and their rows, each stage into the caller's tables.
#![tactic(auto)]

ghost use Rattle.std.specs.Prelude.{◌≡◌, true, ◌*◌, ◌≤◌, eqb};
ghost use Rattle.policy.specs.Policies.{legal};
ghost use Rattle.builder.specs.Tables.{sizes_fit, tables, Translates};

use automaton::Forest;
use policy::Policy;
use refusals::Refusal;

// How many nodes and built states there are, and the state begun in.
#[derive(Clone, Copy, Debug, PartialEq, Eq)]
pub struct Counts {
    pub nodes: u16,
    pub states: u16,
    pub start: u16,
}

// Whether n is k times m. Where the product may be too large, by division.
fn is_times(n: usize, k: u8, m: usize) -> bool
    requires { 1 ≤ k }
    ensures { result ≡ eqb n (k * m) }
{
    if m < 72057594037927936 {
        return n == k as usize * m;
    }
    (n % (k as usize) == 0) & (n / (k as usize) == m)
}

// Whether the tables have lengths that belong together.
fn has_fitting_lengths(
    letters: u8,
    masks: usize,
    parents: usize,
    node_priorities: usize,
    sources: usize,
    leaves: usize,
    targets: usize,
    priorities: usize,
) -> bool
    requires { 1 ≤ letters }
    ensures { result ≡ sizes_fit letters masks parents node_priorities sources leaves targets priorities }
{
    (masks == parents)
        & (masks == node_priorities)
        & (sources == leaves)
        & is_times(targets, letters, sources)
        & is_times(priorities, letters, sources)
}

// A policy's forest and its automaton, in the seven tables: mask, parent and priority of each node; policy state and leaf of each built state; target and
// priority of each row.
// The tables are seven parameters: as one struct of loans, the borrow check does not let the node tables be read while the state tables are filled.
pub fn translate(
    p: &Policy,
    masks: &mut [u64],
    parents: &mut [u16],
    node_priorities: &mut [u8],
    sources: &mut [u8],
    leaves: &mut [u16],
    targets: &mut [u16],
    priorities: &mut [u8],
) -> Result<Counts, Refusal>
    ensures { Translates p.now (tables masks.old parents.old node_priorities.old sources.old leaves.old targets.old priorities.old) result (tables masks.new parents.new node_priorities.new sources.new leaves.new targets.new priorities.new) }
{
    if !policy::is_legal(p) {
        return Err(Refusal::IllegalPolicy);
    }
    translate_legal(
        p,
        masks,
        parents,
        node_priorities,
        sources,
        leaves,
        targets,
        priorities,
    )
}

// The same for a legal policy, without asking question 7. Inner layer: for callers that know the policy to be legal.
pub fn translate_legal(
    p: &Policy,
    masks: &mut [u64],
    parents: &mut [u16],
    node_priorities: &mut [u8],
    sources: &mut [u8],
    leaves: &mut [u16],
    targets: &mut [u16],
    priorities: &mut [u8],
) -> Result<Counts, Refusal>
    requires { legal p.now ≡ true }
    ensures { Translates p.now (tables masks.old parents.old node_priorities.old sources.old leaves.old targets.old priorities.old) result (tables masks.new parents.new node_priorities.new sources.new leaves.new targets.new priorities.new) }
{
    if !has_fitting_lengths(
        p.letters,
        masks.len(),
        parents.len(),
        node_priorities.len(),
        sources.len(),
        leaves.len(),
        targets.len(),
        priorities.len(),
    ) {
        return Err(Refusal::Lengths);
    }
    let Some(filled) = decomposition::fill_nodes(p, masks, parents, node_priorities) else {
        filling::clear_built(sources, leaves, targets, priorities);
        return Err(Refusal::TooManyNodes);
    };
    let nodes = Forest {
        policy: p,
        masks: &*masks,
        parents: &*parents,
        priorities: &*node_priorities,
        transient: filled.transient,
    };
    let Some(built) = filling::build(&nodes, filled.count, sources, leaves, targets, priorities)
    else {
        tables::clear(masks);
        tables::clear(parents);
        tables::clear(node_priorities);
        return Err(Refusal::TooManyStates);
    };
    Ok(Counts {
        nodes: filled.count as u16,
        states: built.states as u16,
        start: built.start,
    })
}
