// No code: the theorems that the promises rest on.
#![tactic(auto)]
