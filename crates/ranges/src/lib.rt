// No code: what passes reading lies within its ranges.
#![tactic(auto)]
