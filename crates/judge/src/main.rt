// Judges `log.txt` by `pattern.txt`, both in the working directory, and prints the rows or the refusal.
#![tactic(auto)]

use judge_files::{Names, Rooms};
use std::io;

fn main(rt: HostRuntime) -> io::Result<()> {
    let names = Names {
        pattern: b"pattern.txt",
        log: b"log.txt",
    };
    // Document 01's form: the arrays, of these lengths, stand in `main`.
    let mut rooms = Rooms {
        pattern_text: [0; 16385],
        log_text: [0; 65536],
        pattern: [0; 2074],
        log: [0; 7170],
        result: [0; 10240],
        work: [0; 16384],
        output: [0; 65536],
    };
    let printed = judge_files::run_rooms(&rt, names, &mut rooms);
    let output: &[u8] = &rooms.output;
    rt.write_all(&output[..printed.length])
}
