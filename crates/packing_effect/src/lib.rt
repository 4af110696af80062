// The packed program has the source's effect. No code.
#![tactic(auto)]
