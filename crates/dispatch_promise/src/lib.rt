// What is promised of a dispatch, and its proof. No code.
#![tactic(auto)]
