// Unwinding undoes the prolog, with the step as its subject: the theorem (proofs/Theorem.antt).
#![tactic(auto)]
