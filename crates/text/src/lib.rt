// From bytes to lines, for a text of any length.
// Every function asks nothing of its caller, and answers by a definition; those of lines take the bytes that they speak of as a slice.
#![tactic(auto)]

pub mod faults;
pub mod lines;
