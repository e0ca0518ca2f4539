// What test programs say of a call: its answer, what it left in a buffer that was all marks before
// it, how often each kind came.
#![tactic(auto)]

mod answers;
mod marks;
mod tally;

pub use answers::{print_answer, print_buffer, print_claim, try_marked};
pub use marks::{Mark, is_marked, is_marked_from, marked, sum_of_sums};
pub use tally::{Tally, try_cases};
