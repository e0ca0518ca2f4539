// Random log rooms: what the writer writes is read, and the numbers compared; a byte of it is changed, and the reader's refusal
// compared; then one number is changed, and the room is refused or gives another text. It prints what was tried and how much of each
// kind.
#![tactic(auto)]

use room::WrittenLog;
use std::io;
use writer_trials::Counts;

mod room;

fn main(rt: HostRuntime) -> io::Result<()> {
    let counts = Counts::of_rooms::<WrittenLog>(rt.alloc(), 2000, 4)?;
    counts.print::<WrittenLog>(&rt)
}
