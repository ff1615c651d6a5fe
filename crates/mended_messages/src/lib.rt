// That a plan with the mend put in passes reading, differs in that one field, and is accepted; no code.
#![tactic(auto)]
