// Theorems about the byte of a refused pattern text have no code.
#![tactic(auto)]
