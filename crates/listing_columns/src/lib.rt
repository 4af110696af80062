// A listing's fields in their columns: how long lines are, and what is read back from a printed text. No code.
#![tactic(auto)]
