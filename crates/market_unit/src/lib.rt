// No code: the promises of the market's copy of a plan's completion, on bytes.
#![tactic(auto)]
