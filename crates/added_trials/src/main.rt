// Random patterns of one bead and pairs of logs: additions keep SOME, and keep ALL from holding. It prints what was tried and how much
// of each kind.
#![tactic(auto)]

use added::Counts;
use judged_pairs::{TwoLogs, try_pairs};
use std::io;

mod added;
mod change;

fn main(rt: HostRuntime) -> io::Result<()> {
    let mut counts = Counts::default();
    let mut rooms = TwoLogs::new();
    try_pairs(1600, 3, |i, random| counts.try_pair(i, random, &mut rooms));
    print!(rt; "{counts}")
}
