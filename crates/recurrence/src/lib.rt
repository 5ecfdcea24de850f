// Endless repetition: what recurs in it, and the search for the round after which it repeats. Definitions in specs/, laws in proofs/.
#![tactic(auto)]

ghost use Rattle.std.specs.Prelude.{◌≡◌, ◌<◌};
ghost use Rattle.recurrence.specs.Search.{search_from, search_next};

// The search for a repeat among the states in which rounds end (Brent's cycle finding): one state is kept, and every later one is compared with it. It gives way to the present
// one after 1, 2, 4, .. rounds, so that at last a state is kept that recurs, and for long enough to be seen again. No table of the states seen is needed.
#[derive(Clone, Copy, Debug, PartialEq, Eq)]
pub struct Search {
    // the state in which the next round begins
    pub state: usize,
    // what the rounds met since the kept state was reached
    pub value: u8,
    pub kept: usize,
    // how many rounds ago the kept state was reached, and after how many it gives way
    pub since: usize,
    pub limit: usize,
    // whether a state was seen again: then the value is what recurs. No Option: the value goes on from round to round before, too
    pub found: bool,
}

impl Search {
    // Before the first round; `none` is the value of no round.
    pub fn new(state: usize, none: u8) -> Self
        ensures { result ≡ search_from state none }
    {
        Self {
            state,
            value: none,
            kept: state,
            since: 0,
            limit: 1,
            found: false,
        }
    }

    // After a round more, which ended in the state `ended`: `one` is the value of that round, `all` that of the rounds since the kept state was reached, with this one.
    // A round that ends where it began is a repeat by itself.
    pub fn next(self, ended: usize, one: u8, all: u8, none: u8) -> Self
        requires { (self.since < 4294967296) × (self.limit < 4294967296) }
        ensures { result ≡ search_next self ended one all none }
    {
        let mut s = self;
        let begun = s.state;
        s.state = ended;
        s.value = all;
        if ended == begun {
            s.value = one;
            s.found = true;
            return s;
        }
        if ended == s.kept {
            s.found = true;
            return s;
        }
        s.since += 1;
        if s.since == s.limit {
            s.value = none;
            s.kept = ended;
            s.since = 0;
            s.limit *= 2;
        }
        s
    }
}
