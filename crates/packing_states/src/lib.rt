// Packing as the model has it, node by node and reference by reference: laws, no code.
#![tactic(auto)]
