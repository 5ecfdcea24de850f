// What the project is for: demand 3 and the known policies.
#![tactic(auto)]
