// No code: which field of a message a refusal is of; messages broken off and run on.
#![tactic(auto)]
