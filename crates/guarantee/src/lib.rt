// The guarantee: no code, only definitions in specs/ and theorems in proofs/.
#![tactic(auto)]
