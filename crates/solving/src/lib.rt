// Solving the supervisor's game: a policy is translated, 16 and 17 are asked about the owners of its states, and each built state gets its winner, and a letter where its owner wins.
// All of it stands in the caller's tables: the seven of translating, the winners and the letters. So the functions that fill them in have more than eight parameters.
#![tactic(auto)]

ghost use Rattle.std.specs.Prelude.{◌≡◌, true, eqb, length};
ghost use Rattle.policy.specs.Policies.{legal};
ghost use Rattle.builder.specs.Tables.{number_of, tables};
ghost use Rattle.solving.specs.Solving.{Solves};
ghost use Rattle.solving.specs.Stages.{are_players, owners_answer, answer_after, Ready, Decides};

use attracting::Game;
use builder::Counts;
use policy::Policy;
use refusals::Refusal;

// ---- the owners

// Whether each byte is 0, the supervisor, or 1, the plant.
fn are_players(owners: &[u8]) -> bool
    ensures { result ≡ are_players owners.now }
{
    owners.iter().all(|owner| *owner <= 1)
}

// 16 and 17 of the owners of so many policy states.
fn ask_owners(owners: &[u8], states: u8) -> Result<(), Refusal>
    ensures { result ≡ owners_answer states owners.now }
{
    if owners.len() != states as usize {
        return Err(Refusal::OwnersLength);
    }
    if !are_players(owners) {
        return Err(Refusal::NoSuchOwner);
    }
    Ok(())
}

// ---- after a translation

// The answer after a translation that answered so: its own refusal, or else that of the owners.
fn answer_after(
    answer: Result<Counts, Refusal>,
    owners: &[u8],
    states: u8,
) -> Result<Counts, Refusal>
    ensures { result ≡ answer_after answer states owners.now }
{
    let counts = answer?;
    ask_owners(owners, states)?;
    Ok(counts)
}

// Whether an answer is the refusal 8.
fn is_of_lengths(answer: Result<Counts, Refusal>) -> bool
    ensures { result ≡ eqb (number_of answer) 8 }
{
    match answer {
        Ok(_) => false,
        Err(refusal) => refusal == Refusal::Lengths,
    }
}

// The winners and the letters, after a translation that answered so: the two tables are as they were after 8, and 0 after every other refusal, 16 and 17 among them; else the
// built states have theirs, and 0 stands past them.
fn decide(
    p: &Policy,
    answer: Result<Counts, Refusal>,
    owners: &[u8],
    sources: &[u8],
    targets: &[u16],
    priorities: &[u8],
    winners: &mut [u8],
    letters: &mut [u8],
) -> Result<Counts, Refusal>
    requires policy { legal p.now ≡ true }
    requires tables { Ready p.now sources.now targets.now priorities.now answer × (length winners.old ≡ length sources.now) × (length letters.old ≡ length sources.now) }
    ensures { Decides p.now owners.now answer winners.old letters.old result winners.new letters.new }
{
    let decision = answer_after(answer, owners, p.states);
    if is_of_lengths(decision) {
        return decision;
    }
    tables::clear(winners);
    tables::clear(letters);
    let counts = decision?;
    let game = Game {
        letters: p.letters as usize,
        owners,
        sources: &sources[..counts.states as usize],
        targets,
        priorities,
    };
    solver::solve_rows(&game, winners, letters);
    Ok(counts)
}

// ---- solving

// A policy's supervisor's game solved, for the owners of its states: the seven tables of its translation; the winner of each built state, 0 the supervisor and 1 the plant; and at
// each state that its owner wins a letter to win by, 255 at the others.
pub fn solve(
    p: &Policy,
    owners: &[u8],
    masks: &mut [u64],
    parents: &mut [u16],
    node_priorities: &mut [u8],
    sources: &mut [u8],
    leaves: &mut [u16],
    targets: &mut [u16],
    priorities: &mut [u8],
    winners: &mut [u8],
    letters: &mut [u8],
) -> Result<Counts, Refusal>
    ensures { Solves p.now owners.now (tables masks.old parents.old node_priorities.old sources.old leaves.old targets.old priorities.old) winners.old letters.old result (tables masks.new parents.new node_priorities.new sources.new leaves.new targets.new priorities.new) winners.new letters.new }
{
    if !policy::is_legal(p) {
        return Err(Refusal::IllegalPolicy);
    }
    solve_legal(
        p,
        owners,
        masks,
        parents,
        node_priorities,
        sources,
        leaves,
        targets,
        priorities,
        winners,
        letters,
    )
}

// The same for a legal policy, without asking question 7. Inner layer: for callers that know the policy to be legal.
pub fn solve_legal(
    p: &Policy,
    owners: &[u8],
    masks: &mut [u64],
    parents: &mut [u16],
    node_priorities: &mut [u8],
    sources: &mut [u8],
    leaves: &mut [u16],
    targets: &mut [u16],
    priorities: &mut [u8],
    winners: &mut [u8],
    letters: &mut [u8],
) -> Result<Counts, Refusal>
    requires { legal p.now ≡ true }
    ensures { Solves p.now owners.now (tables masks.old parents.old node_priorities.old sources.old leaves.old targets.old priorities.old) winners.old letters.old result (tables masks.new parents.new node_priorities.new sources.new leaves.new targets.new priorities.new) winners.new letters.new }
{
    let lengths_fit = (winners.len() == sources.len()) & (letters.len() == sources.len());
    if !lengths_fit {
        return Err(Refusal::Lengths);
    }
    let answer = builder::translate_legal(
        p,
        masks,
        parents,
        node_priorities,
        sources,
        leaves,
        targets,
        priorities,
    );
    let decision = decide(
        p, answer, owners, sources, targets, priorities, winners, letters,
    );
    if answer.is_err() | decision.is_ok() {
        return decision;
    }
    tables::clear(masks);
    tables::clear(parents);
    tables::clear(node_priorities);
    filling::clear_built(sources, leaves, targets, priorities);
    decision
}
