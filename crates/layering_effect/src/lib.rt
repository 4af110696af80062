// The layering pass keeps the effect. No code.
#![tactic(auto)]
