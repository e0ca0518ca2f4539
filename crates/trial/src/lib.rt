// What test programs share: slices read and written at any index, files of cases, pseudo-random numbers. Only a closure is asked for
// something, that it may be called; contracts say only what keeps an index within bounds.
#![tactic(auto)]

mod cells;
mod files;
mod random;

pub use cells::{get, put};
pub use files::{column, each_line, front, number, part};
pub use random::Random;
