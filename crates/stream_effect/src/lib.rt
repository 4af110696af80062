// the stream keeps the effect: theorems, no code
#![tactic(auto)]
