// A byte of an accepted text changed, and what a reader has to answer then. It is made apart from the readers, and knows nothing of
// what they are made of.
#![tactic(auto)]

mod changes;
mod kinds;
mod walk;

pub use changes::Change;
pub use kinds::{Kind, Text};
