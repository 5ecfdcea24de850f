// Full cycles: each node is one, and the largest cycles of a colour set have them. Definitions and laws alone.
#![tactic(auto)]
