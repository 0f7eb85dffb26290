// The strict check of a chain of codes: definitions (specs/).
#![tactic(auto)]
