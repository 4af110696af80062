// the run keeps the effect: theorems, no code
#![tactic(auto)]
