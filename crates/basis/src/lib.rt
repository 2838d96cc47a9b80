// The words of the definitions. No code: the words stand in specs/, the laws about them in the crate laws.
#![tactic(auto)]
