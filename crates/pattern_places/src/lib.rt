// Where a line of a pattern is at fault by its names or its numbers: the place of the field at fault, counted from 1; none where no single field is.
#![tactic(auto)]

pub mod header;
pub mod shape;
