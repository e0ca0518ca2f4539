// The lines of a log: the header's columns, the field `preds`, the limits, and the refusals. A line below the header as a whole: crate `log_step`.
// A line has 4 fields: `Fields<8>` has room for them and for where the line ends.
#![tactic(auto)]

pub mod header;
pub mod limits;
pub mod preds;
pub mod refusals;
