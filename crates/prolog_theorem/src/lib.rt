// Unwinding undoes the prolog: the theorem (proofs/Theorem.antt).
#![tactic(auto)]
