// The guarantee of the code's own calls: no code, only definitions in specs/ and theorems in proofs/.
#![tactic(auto)]
