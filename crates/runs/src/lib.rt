// Runs of the model, by computing. No code.
#![tactic(auto)]
