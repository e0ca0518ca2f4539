// The body of `judge` on the files of several folders, a line of `cases.txt` each: the folder, a tab, what is tried. What it tries is
// printed, then what the program would print.
#![tactic(auto)]

use judge_files::{Names, Rooms};
use std::rt::Files;
use std::{fs, io};

fn main(rt: HostRuntime) -> io::Result<()> {
    let file = fs::read_to_string(&rt, "cases.txt")?;
    for line in file.lines() {
        try_case(&rt, line)?;
    }
    Ok(())
}

fn try_case(rt: &(impl Files + Print + AllocGlobal), line: &str) -> io::Result<()> {
    let (folder, tried) = line.split_once('\t').unwrap_or((line, ""));
    println!(rt; "{tried}")?;
    let pattern_name = format!(in rt.alloc(); "{folder}/pattern.txt")?;
    let log_name = format!(in rt.alloc(); "{folder}/log.txt")?;
    judge(rt, pattern_name.as_bytes(), log_name.as_bytes())
}

// As `judge` does, with files by other names.
fn judge(rt: &(impl Files + Print), pattern_name: &[u8], log_name: &[u8]) -> io::Result<()> {
    let names = Names {
        pattern: pattern_name,
        log: log_name,
    };
    // The arrays of the program `judge`, with the lengths that document 01 has in its `main`.
    let mut rooms = Rooms {
        pattern_text: [0; 16385],
        log_text: [0; 65536],
        pattern: [0; 2074],
        log: [0; 7170],
        result: [0; 10240],
        work: [0; 16384],
        output: [0; 65536],
    };
    let printed = judge_files::run_rooms(rt, names, &mut rooms);
    let output: &[u8] = &rooms.output;
    rt.write_all(&output[..printed.length])
}
