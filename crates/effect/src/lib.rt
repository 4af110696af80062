// Document 01's effect, and what keeps it. No code.
#![tactic(auto)]
