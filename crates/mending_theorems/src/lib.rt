// That at most two tries from the first breach find the smallest change that mends a plan; no code.
#![tactic(auto)]
