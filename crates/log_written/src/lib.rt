// Theorems about the log writer's calls have no code.
#![tactic(auto)]
