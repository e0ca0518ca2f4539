// Random patterns and pairs of logs: a row depends on nothing but its step's past. It prints what was tried and how much of each kind.
#![tactic(auto)]

use beyond::Counts;
use judged_pairs::{TwoLogs, try_pairs};
use std::io;

mod beyond;

fn main(rt: HostRuntime) -> io::Result<()> {
    let mut counts = Counts::default();
    let mut rooms = TwoLogs::new();
    try_pairs(1600, 2, |i, random| counts.try_pair(i, random, &mut rooms));
    print!(rt; "{counts}")
}
