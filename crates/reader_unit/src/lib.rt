// No code: the promises of reading completions and market copies back, on bytes, each lent its case.
#![tactic(auto)]
