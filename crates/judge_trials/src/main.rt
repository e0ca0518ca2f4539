// Random patterns and logs: the judge against one made apart from it (`other_judge`). It prints what was tried and how much of each
// kind.
#![tactic(auto)]

use agree::{Counts, Rooms};
use judged_pairs::try_pairs;
use std::io;

mod agree;
mod report;

fn main(rt: HostRuntime) -> io::Result<()> {
    let mut counts = Counts::default();
    let mut rooms = Rooms::new();
    try_pairs(3200, 1, |i, random| counts.try_pair(i, random, &mut rooms));
    print!(rt; "{counts}")
}
