// Cycles as a forest: definitions in specs/, laws in proofs/. No code of its own.
#![tactic(auto)]
