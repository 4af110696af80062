// theorems about frame rows that are no roots; no code
#![tactic(auto)]
