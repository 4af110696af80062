// what calls of the exported functions leave: theorems, no code
#![tactic(auto)]
