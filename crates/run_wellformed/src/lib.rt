// theorems about the model's runs: angles, lengths, waiting rotations, memory; no code
#![tactic(auto)]
