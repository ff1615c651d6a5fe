// Items 1 to 3 restated over bytes for whoever checks the claim; no code.
#![tactic(auto)]
