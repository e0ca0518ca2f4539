// Theorems about the pattern writer's calls have no code.
#![tactic(auto)]
