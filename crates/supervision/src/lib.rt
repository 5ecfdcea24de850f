// The supervisor's game of a policy: definitions in specs/, laws in proofs/. No code of its own.
#![tactic(auto)]
