// The laws about meter files: no code, only proofs/.
#![tactic(auto)]
