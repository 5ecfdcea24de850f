#![tactic(auto)]

// Lists of numbers and tests on them: definitions in specs/, laws in proofs/. No code of its own.
