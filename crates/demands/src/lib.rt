// Theorems about the judge's calls have no code.
#![tactic(auto)]
