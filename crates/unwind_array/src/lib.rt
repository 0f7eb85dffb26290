// The codes of a record's chain as arrays, one for each info, and as the one list that they join to: definitions (specs/), and no code.
#![tactic(auto)]
