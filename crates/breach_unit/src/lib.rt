// No code: the promises of listing every broken rule of a plan, on bytes.
#![tactic(auto)]
