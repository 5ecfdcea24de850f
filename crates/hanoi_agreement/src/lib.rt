// A text of the Hanoi format and the policy that is read from it agree on every stem and loop: definitions in specs/, laws in proofs/. No code of its own.
#![tactic(auto)]
