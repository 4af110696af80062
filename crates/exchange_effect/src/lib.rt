// The exchange pass keeps the effect. No code.
#![tactic(auto)]
