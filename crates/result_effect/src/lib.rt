// theorems about the model's result records: the operations and the rows that they stand for; no code
#![tactic(auto)]
