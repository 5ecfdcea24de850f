// What holds after a call of solving: definitions in specs/, laws in proofs/. No code of its own.
#![tactic(auto)]
