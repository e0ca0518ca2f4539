// A judge made apart from the library, for trials, of logs of at most 128 steps. It settles each bead on every pair of steps first,
// straight from the next sets, with no step table and no backward pass. A set of beads has bit k for bead k + 1, a set of prefixes
// bit k for the first k beads.
#![tactic(auto)]

mod front;
mod pairs;
mod prefixes;
mod settled;
mod states;

pub use pairs::{Pairs, settle_pairs};
pub use settled::{Row, Settled};

// No step from this one on is looked at.
pub const STEPS: usize = 128;
