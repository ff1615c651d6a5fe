// No code: which case and plan the rows hold, and every law on what they hold.
#![tactic(auto)]
