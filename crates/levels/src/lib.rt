// The recursion over the priorities of a game, by marks: definitions in specs/, laws in proofs/. No code of its own.
#![tactic(auto)]
