// The laws about the words and the rules: no code, only proofs/.
#![tactic(auto)]
