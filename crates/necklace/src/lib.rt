// The theory has no code.
#![tactic(auto)]
