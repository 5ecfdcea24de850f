// The built automaton: definitions in specs/, laws in proofs/; and the tables that its stages read.
#![tactic(auto)]

ghost use Rattle.std.specs.Prelude.{◌≡◌, true};
ghost use Rattle.policy.specs.Policies.{legal};
ghost use Rattle.forest.specs.Forest.{transient_priority};
ghost use Rattle.automaton.specs.Stages.{Nodes};

use policy::Policy;

// A legal policy and its forest: mask, parent and priority of each node, in tables that begin with them; and the lowest priority, which an edge in no cycle has.
#[derive(Clone, Copy)]
pub struct Forest<'a> {
    pub policy: &'a Policy,
    pub masks: &'a [u64],
    pub parents: &'a [u16],
    pub priorities: &'a [u8],
    pub transient: u8,
    ghost lawful: { legal policy.now ≡ true },
    ghost nodes: { Nodes policy.now masks.now parents.now priorities.now },
    ghost lowest: { transient ≡ transient_priority policy.now },
}
