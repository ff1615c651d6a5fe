// Small days with one device, each mended as it is by hand; no code.
#![tactic(auto)]
