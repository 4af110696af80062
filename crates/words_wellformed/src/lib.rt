// Theorems about the words of the model. No code.
#![tactic(auto)]
