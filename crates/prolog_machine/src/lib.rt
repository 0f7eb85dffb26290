// What a prolog does when it runs: definitions (specs/).
#![tactic(auto)]
