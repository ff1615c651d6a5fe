// No code: the promises of the smallest power change that mends a plan, on bytes.
#![tactic(auto)]
