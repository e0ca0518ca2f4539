// Theorems about the buffers that log texts give: no code.
#![tactic(auto)]
