// No code: the promises of judging a plan against a case, on bytes.
#![tactic(auto)]
