// Records as layouts: definitions (specs/) and what is proved of them once for all records (proofs/). No code of its own.
#![tactic(auto)]
