// Theorems about the buffers that pattern texts give: no code.
#![tactic(auto)]
