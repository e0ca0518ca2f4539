// Random pattern rooms: what the writer writes is read, and the numbers compared; a byte of it is changed, and the reader's refusal
// compared; then one number is changed, and the room is refused or gives another text. It prints what was tried and how much of each
// kind.
#![tactic(auto)]

use room::WrittenPattern;
use std::io;
use writer_trials::Counts;

mod room;

fn main(rt: HostRuntime) -> io::Result<()> {
    let counts = Counts::of_rooms::<WrittenPattern>(rt.alloc(), 4000, 3)?;
    counts.print::<WrittenPattern>(&rt)
}
