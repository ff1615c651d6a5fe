// Tabulated facts about the definitions of `model`: small days with the answers of an independent reading.
#![tactic(auto)]
