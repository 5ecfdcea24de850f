// The two calls of the static library that solve the supervisor's game, of a record and of command bytes: the number of the refusal is returned, 0 where there is none, and what else is
// answered stands in places that the caller lends. Only a function of the library's own crate stands in the archive under its name, so that crate hands its calls on to these.
// A policy or its bytes, the owners, the nine tables and what is answered beside them are more than eight parameters.
#![tactic(auto)]

ghost use Rattle.builder.specs.Tables.{tables};
ghost use Rattle.records.specs.Records.{policy_of};
ghost use Rattle.solving_calls.specs.Calls.{SolvesRecord, SolvesBytes};

// The policy of a record.
pub fn solve_record(
    packed: &[u8],
    owners: &[u8],
    masks: &mut [u64],
    parents: &mut [u16],
    node_priorities: &mut [u8],
    sources: &mut [u8],
    leaves: &mut [u16],
    targets: &mut [u16],
    priorities: &mut [u8],
    winners: &mut [u8],
    letters: &mut [u8],
    counts: &mut [u16; 3],
) -> u8
    ensures { SolvesRecord owners.now (tables masks.old parents.old node_priorities.old sources.old leaves.old targets.old priorities.old) winners.old letters.old (policy_of packed.now) result counts.new (tables masks.new parents.new node_priorities.new sources.new leaves.new targets.new priorities.new) winners.new letters.new }
{
    let p = records::policy_of(packed);
    let t = solving::solve(
        &p,
        owners,
        masks,
        parents,
        node_priorities,
        sources,
        leaves,
        targets,
        priorities,
        winners,
        letters,
    );
    answers::of_translation(t, counts)
}

// The policy that command bytes give. What was read is legal, so question 7 is not asked again; after a refused reading the policy is all zero, and solving an illegal policy leaves
// the tables as they are and counts nothing. The offset is 0 after another refusal.
pub fn solve_bytes(
    bytes: &[u8],
    owners: &[u8],
    masks: &mut [u64],
    parents: &mut [u16],
    node_priorities: &mut [u8],
    sources: &mut [u8],
    leaves: &mut [u16],
    targets: &mut [u16],
    priorities: &mut [u8],
    winners: &mut [u8],
    letters: &mut [u8],
    counts: &mut [u16; 3],
    offset: &mut usize,
) -> u8
    ensures { SolvesBytes owners.now (tables masks.old parents.old node_priorities.old sources.old leaves.old targets.old priorities.old) winners.old letters.old bytes.now result counts.new (tables masks.new parents.new node_priorities.new sources.new leaves.new targets.new priorities.new) winners.new letters.new offset.new }
{
    let found = match reading::read(bytes) {
        Ok(found) => found,
        Err(refused) => {
            *counts = [0, 0, 0];
            *offset = refused.at;
            return refused.refusal.number();
        }
    };
    let t = solving::solve_legal(
        &found.policy,
        owners,
        masks,
        parents,
        node_priorities,
        sources,
        leaves,
        targets,
        priorities,
        winners,
        letters,
    );
    let number = answers::of_translation(t, counts);
    *offset = answers::unless_refused(number, found.end);
    number
}
