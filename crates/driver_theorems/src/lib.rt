// What the author of a driver may rely on: the theorems, in one short file (proofs/Theorems.antt).
#![tactic(auto)]
