// Abelian groups, their identities by computing, and the exchange theorem. No code.
#![tactic(auto)]
