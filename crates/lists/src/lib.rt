// Definitions of lists, and their laws: numbers at a place, tables, the leftmost of several, filled lists. There is no code here.
#![tactic(auto)]
