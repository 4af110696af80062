// Rotations and items as the effect's operations. No code.
#![tactic(auto)]
