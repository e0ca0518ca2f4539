// What the lines of a pattern share: the refusals.
// A line's fields are `Fields<PATTERN_FIELDS>`: room for each, and for where the line ends.
#![tactic(auto)]

pub mod refusals;
