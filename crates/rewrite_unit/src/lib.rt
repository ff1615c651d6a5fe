// No code: the promises of writing a plan in the newest edition, on bytes.
#![tactic(auto)]
