// Theorems on renumbering devices, on contents; no code.
#![tactic(auto)]
