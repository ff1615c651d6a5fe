// Theorems on the list of every broken rule; no code.
#![tactic(auto)]
