// What the trials of both writers share: rooms drawn, written, read back, changed and written again; their texts changed and read.
#![tactic(auto)]

mod counts;
mod report;
mod rooms;
mod texts;
mod written;

pub use counts::Counts;
pub use written::Written;
