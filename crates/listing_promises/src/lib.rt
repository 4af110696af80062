// what calls of Listing leave and print: theorems, no code
#![tactic(auto)]
