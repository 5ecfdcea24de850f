// Running over the rows of a built automaton: one letter at a time, with questions 8, 11, 12 and 13 asked in order.
#![tactic(auto)]

ghost use Rattle.std.specs.Prelude.{◌≡◌};
ghost use Rattle.running.specs.Running.{states_of, ReadsLetter};

use refusals::Refusal;

// A run of the built automaton: a value that holds its present state.
#[derive(Clone, Copy, Debug, PartialEq, Eq)]
pub struct Run {
    pub state: u16,
}

// What a letter that is read gives: the moved run, and the priority met.
#[derive(Clone, Copy, Debug, PartialEq, Eq)]
pub struct Met {
    pub run: Run,
    pub priority: u8,
}

// How many states the rows have, if question 8 is answered yes: letters 1 to 8, row tables of one length, that a multiple of letters, at most 65,535 states.
pub fn states_of(letters: u8, targets: &[u16], priorities: &[u8]) -> Result<usize, Refusal>
    ensures { result ≡ states_of letters targets.now priorities.now }
{
    if letters < 1 || 8 < letters || targets.len() != priorities.len() {
        return Err(Refusal::Lengths);
    }
    let k = usize::from(letters);
    let states = targets.len() / k;
    if targets.len() % k != 0 || 65535 < states {
        return Err(Refusal::Lengths);
    }
    Ok(states)
}

impl Run {
    // The run after a letter, and the priority that the letter meets; a refused letter leaves the run as it is.
    pub fn read(
        self,
        letter: u8,
        letters: u8,
        targets: &[u16],
        priorities: &[u8],
    ) -> Result<Met, Refusal>
        ensures { ReadsLetter letters targets.now priorities.now self letter result }
    {
        let states = states_of(letters, targets, priorities)?;
        let at = usize::from(self.state);
        if states <= at {
            return Err(Refusal::NoSuchState);
        }
        if letters <= letter {
            return Err(Refusal::NoSuchLetter);
        }
        let a = usize::from(letter);
        let row = at * usize::from(letters) + a;
        let t = targets[row];
        if states <= usize::from(t) {
            return Err(Refusal::NoSuchTarget);
        }
        let met = priorities[row];
        Ok(Met {
            run: Run { state: t },
            priority: met,
        })
    }
}
