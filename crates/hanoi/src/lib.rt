// The Hanoi Omega-Automata format, version 1, as far as document 02 has it read (S-4): what a text of the subset is, what it means, and what reading any text answers. Definitions and
// laws alone, with the type that the code above shares with them.
#![tactic(auto)]

use refusals::Refusal;

// Why a text is refused; and beside NotHanoi the length of the longest beginning that some text of the subset shares, else 0.
#[derive(Clone, Copy, Debug, PartialEq, Eq)]
pub struct TextRefused {
    pub refusal: Refusal,
    pub shared: usize,
}
