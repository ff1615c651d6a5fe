// No code: a case and a plan decoded into rows, and the tables that hold them.
#![tactic(auto)]
