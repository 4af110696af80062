// Theorems about the model alone. No code.
#![tactic(auto)]
