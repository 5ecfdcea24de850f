// Judging a stem and a loop repeated without end, on a policy and on the rows of a built automaton. A round is one reading of the loop.
#![tactic(auto)]

ghost use Rattle.std.specs.Prelude.{◌≡◌, true, ◌||◌, [], ◌<◌};
ghost use Rattle.policy.specs.Policies.{legal};
ghost use Rattle.running.specs.Running.{shaped, row_states};
ghost use Rattle.judging.specs.Judging.{in_range, recurring_colours, ever_dangling, least_recurring, JudgesPolicy, JudgesRows};
ghost use Rattle.judging.specs.Rounds.{run_of, seen_step, seen_after, coloured_step, coloured_after};

use policy::Policy;
use recurrence::Search;
use refusals::Refusal;

// What a judged policy comes to: the colours that recur, and whether their set is in the family.
#[derive(Clone, Copy, Debug, PartialEq, Eq)]
pub struct Verdict {
    pub colours: u8,
    pub accepted: bool,
}

// Whether every letter is below the number of letters.
// Without a branch: `all`, which ends at the first letter outside, takes the letters one by one.
fn in_range(letters: u8, word: &[u8]) -> bool
    ensures { result ≡ in_range letters word.now }
{
    let mut b = true;
    for &letter in word {
        b = b & (letter < letters);
    }
    b
}

// Rows past question 8, and how many states they have: of running's questions only 13 is left to ask of a run from one of the states on.
#[derive(Clone, Copy)]
struct RowTables<'a> {
    letters: u8,
    targets: &'a [u16],
    priorities: &'a [u8],
    states: usize,
    ghost passes: { shaped letters targets.now priorities.now ≡ true },
    ghost count_is: { states ≡ row_states letters targets.now priorities.now },
}

// What a run over rows has come to: its state, the least priority met (255 of none), and whether it read a row whose target is no state.
#[derive(Clone, Copy)]
struct Seen {
    pub state: usize,
    pub least: u8,
    pub dangling: bool,
}

// After a letter more.
fn seen_with(s: Seen, letter: u8, r: &RowTables<'_>) -> Seen
    requires among { s.state < r.now.states }
    requires letter { letter < r.now.letters }
    ensures { result ≡ seen_step r.now.letters r.now.targets.now r.now.priorities.now s letter }
{
    let row = s.state * usize::from(r.letters) + usize::from(letter);
    let t = usize::from(r.targets[row]);
    if r.states <= t {
        return Seen {
            state: s.state,
            least: s.least,
            dangling: true,
        };
    }
    Seen {
        state: t,
        least: r.priorities[row].min(s.least),
        dangling: s.dangling,
    }
}

// After a list of letters.
fn seen_word(s: Seen, word: &[u8], r: &RowTables<'_>) -> Seen
    requires among { s.state < r.now.states }
    requires range { in_range r.now.letters word.now ≡ true }
    ensures { result ≡ seen_after r.now.letters r.now.targets.now r.now.priorities.now word.now s }
{
    let mut t = s;
    for &letter in word {
        t = seen_with(t, letter, r);
    }
    t
}

// The least priority that recurs in the rounds from here, and whether the run ever reads a row whose target is no state.
fn seen_recurring(s: Seen, period: &[u8], r: &RowTables<'_>) -> Seen
    requires among { s.state < r.now.states }
    requires range { in_range r.now.letters period.now ≡ true }
    ensures { (result.least ≡ least_recurring r.now.letters r.now.targets.now r.now.priorities.now (run_of s) [] period.now) × (result.dangling ≡ s.dangling || ever_dangling r.now.letters r.now.targets.now r.now.priorities.now (run_of s) [] period.now) }
{
    let mut search = Search::new(s.state, 255);
    let mut dangling = s.dangling;
    while !search.found {
        let begun = Seen {
            state: search.state,
            least: 255,
            dangling,
        };
        let one = seen_word(begun, period, r);
        dangling = one.dangling;
        let all = search.value.min(one.least);
        search = search.next(one.state, one.least, all, 255);
    }
    Seen {
        state: search.state,
        least: search.value,
        dangling,
    }
}

// The least priority that the run over the rows meets again and again, from a state over the stem and then the loop without end.
pub fn judge_rows(
    letters: u8,
    targets: &[u16],
    priorities: &[u8],
    state: u16,
    stem: &[u8],
    period: &[u8],
) -> Result<u8, Refusal>
    ensures { JudgesRows letters targets.now priorities.now (record { state = state }) stem.now period.now result }
{
    let n = running::states_of(letters, targets, priorities)?;
    if n <= usize::from(state) {
        return Err(Refusal::NoSuchState);
    }
    if period.is_empty() {
        return Err(Refusal::EmptyLoop);
    }
    if !(in_range(letters, stem) & in_range(letters, period)) {
        return Err(Refusal::NoSuchLetter);
    }
    let rows = RowTables {
        letters,
        targets,
        priorities,
        states: n,
    };
    let start = Seen {
        state: usize::from(state),
        least: 255,
        dangling: false,
    };
    let before = seen_word(start, stem, &rows);
    let all = seen_recurring(before, period, &rows);
    if all.dangling {
        return Err(Refusal::NoSuchTarget);
    }
    Ok(all.least)
}

// What a policy's run has come to: its state, and the colours met.
// One trait for both runs would be longer than the twins: beside the step, what nothing met counts as, how two values join, the row with no state, and the laws of each.
#[derive(Clone, Copy)]
struct Coloured {
    pub state: usize,
    pub colours: u8,
}

// After a letter more; a quiet edge meets no colour.
fn coloured_with(p: &Policy, m: Coloured, letter: u8) -> Coloured
    requires legal { legal p.now ≡ true }
    requires among { m.state < p.now.states }
    requires letter { letter < p.now.letters }
    ensures { result ≡ coloured_step p.now m letter }
{
    let e = m.state * usize::from(p.letters) + usize::from(letter);
    Coloured {
        state: usize::from(p.target[e]),
        colours: masks::with_if(m.colours, usize::from(p.colour[e]), !masks::has(p.quiet, e)),
    }
}

// After a list of letters.
fn coloured_word(p: &Policy, m: Coloured, word: &[u8]) -> Coloured
    requires legal { legal p.now ≡ true }
    requires among { m.state < p.now.states }
    requires range { in_range p.now.letters word.now ≡ true }
    ensures { result ≡ coloured_after p.now word.now m }
{
    let mut t = m;
    for &letter in word {
        t = coloured_with(p, t, letter);
    }
    t
}

// The colours that recur in the rounds from a state.
fn coloured_recurring(p: &Policy, state: usize, period: &[u8]) -> u8
    requires legal { legal p.now ≡ true }
    requires among { state < p.now.states }
    requires range { in_range p.now.letters period.now ≡ true }
    ensures { result ≡ recurring_colours p.now state [] period.now }
{
    let mut search = Search::new(state, 0);
    while !search.found {
        let begun = Coloured {
            state: search.state,
            colours: 0,
        };
        let one = coloured_word(p, begun, period);
        let all = search.value | one.colours;
        search = search.next(one.state, one.colours, all, 0);
    }
    search.value
}

// The colours that the policy's run meets again and again, from a state over the stem and then the loop without end, and their verdict.
pub fn judge_policy(p: &Policy, state: u8, stem: &[u8], period: &[u8]) -> Result<Verdict, Refusal>
    ensures { JudgesPolicy p.now state stem.now period.now result }
{
    if !policy::is_legal(p) {
        return Err(Refusal::IllegalPolicy);
    }
    if p.states <= state {
        return Err(Refusal::NoSuchState);
    }
    if period.is_empty() {
        return Err(Refusal::EmptyLoop);
    }
    if !(in_range(p.letters, stem) & in_range(p.letters, period)) {
        return Err(Refusal::NoSuchLetter);
    }
    let start = Coloured {
        state: usize::from(state),
        colours: 0,
    };
    let before = coloured_word(p, start, stem);
    let all = coloured_recurring(p, before.state, period);
    Ok(Verdict {
        colours: all,
        accepted: p.family[usize::from(all)],
    })
}
