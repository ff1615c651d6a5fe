// Theorems on renumbering devices, on messages; no code.
#![tactic(auto)]
