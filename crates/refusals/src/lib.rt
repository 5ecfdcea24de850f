// Why a call is refused, and the number of each reason. The number is that of the first question answered no.
#![tactic(auto)]

ghost use Rattle.std.specs.Prelude.{◌≡◌};
ghost use Rattle.refusals.specs.Refusals.{number};

#[derive(Clone, Copy, Debug, PartialEq, Eq)]
pub enum Refusal {
    // the command bytes end inside the policy
    Truncated = 1,
    // a command's first byte is none of 0 to 4
    UnknownCommand = 2,
    // the first command is not shape, or a later one is
    Misplaced = 3,
    // an operand is outside the limits or the declared counts; a text has too many states, or states times letters
    OutOfRange = 4,
    // an edge or a set is given again; an edge with a colour and without one too
    Repeated = 5,
    // an edge has not been given when the end command comes
    Incomplete = 6,
    // a policy is not legal, or its record has another length
    IllegalPolicy = 7,
    // the lengths of the tables do not belong together, or there are too many states or no proper number of letters
    Lengths = 8,
    // the nodes do not fit their tables
    TooManyNodes = 9,
    // the built states do not fit their tables
    TooManyStates = 10,
    // the state is none of the policy's, or has no rows
    NoSuchState = 11,
    // a letter is none of the policy's
    NoSuchLetter = 12,
    // a row leads to a state that has no rows
    NoSuchTarget = 13,
    // the loop is empty
    EmptyLoop = 14,
    // the two policies have different states, letters or targets
    DifferentGraphs = 15,
    // there is not one owner for each policy state
    OwnersLength = 16,
    // an owner is neither 0, the supervisor, nor 1, the plant
    NoSuchOwner = 17,
    // a text is not in the subset of the Hanoi format
    NotHanoi = 18,
    // a text has more than 8 different mark sets
    TooManyMarkSets = 19,
}

impl Refusal {
    // The number that says so.
    pub fn number(self) -> u8
        ensures { result ≡ number self }
    {
        self as u8
    }
}
