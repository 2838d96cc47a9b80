// One answer for each call: no code, only theorems in proofs/.
#![tactic(auto)]
