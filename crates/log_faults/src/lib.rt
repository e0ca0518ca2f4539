// Theorems about the byte of a refused log text: no code.
#![tactic(auto)]
