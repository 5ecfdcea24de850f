// The candidates of a root: the cycles among which the nodes of its tree are looked for. Definitions and laws alone.
#![tactic(auto)]
