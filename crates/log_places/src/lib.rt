// Where a line of a log is at fault, from the line alone: the header's names; a field of another form. What is over a limit: crate `log_limits`.
#![tactic(auto)]

pub mod header;
pub mod malformed;
