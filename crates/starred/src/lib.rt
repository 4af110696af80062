// The starred examples of document 01, proved about the definitions by computing. No code.
#![tactic(auto)]
