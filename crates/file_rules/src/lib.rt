// The rules of meter files and of what is printed of them: no code, only specs/.
#![tactic(auto)]
