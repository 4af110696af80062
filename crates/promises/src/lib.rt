// what calls of the public functions leave: theorems, no code
#![tactic(auto)]
