// Each function of `trial`, `outcome` and `script` at its edges, and texts put together in a buffer, on the cases of `cases.txt`, a line a case.
//
// A line of the file has its columns parted by tabs: what is tried, the kind, and what the kind takes. A kind that takes nothing is
// a group of cases that share a buffer or a generator; its function has their names.
#![tactic(auto)]

use std::io;
use std::rt::Files;
use trial::column;

mod appended;
mod cells;
mod drawn;
mod files;

fn main(rt: HostRuntime) -> io::Result<()> {
    trial::each_line(&rt, "cases.txt", |line| try_case(&rt, line))
}

fn try_case(rt: &(impl Files + Print + AllocGlobal), line: &str) -> io::Result<()> {
    let what = column(line, 0);
    let a = column(line, 2);
    let b = column(line, 3);
    match column(line, 1) {
        "read" => cells::show_get(rt, what, &[10u16, 11, 65535], argument(a) as usize),
        "empty" => cells::show_get::<u16>(rt, what, &[], 0),
        "write" => cells::show_write(rt, what, a),
        "cell" => cells::show_get(rt, what, b"abc", argument(a) as usize),
        "put" => cells::show_put_byte(rt, what, a),
        "single" => appended::show_single(rt, what, a, b),
        "bytes" => appended::show_run(rt, what, a, b),
        "number" => appended::show_number(rt, what, a, b),
        "times" => appended::show_repeat(rt, what, a),
        "generator" => drawn::show_seed(rt, what, a),
        "first" => drawn::show_first(rt),
        "under" => drawn::show_below(rt, what, a),
        "load" => files::show_load(rt, what, a),
        "digits" => println!(rt; "{what}: {}", trial::number(a.as_bytes())),
        "marks" => files::show_marks(rt),
        "x" => files::show_script(rt, what, a, b),
        _ => println!(rt; "NO SUCH KIND"),
    }
}

// The whole buffer, and the index that an append answered.
pub fn show(rt: &impl Print, what: &str, buf: &[u8], next: usize) -> io::Result<()> {
    print!(rt; "{what}: ")?;
    rt.write_all(buf)?;
    println!(rt; ", next {next}")
}

// A number, or one of those of more than nine digits by name: the largest, the generator's modulus, the one before that.
pub fn argument(word: &str) -> u64 {
    match word {
        "largest" => u64::MAX,
        "modulus" => 2147483647,
        "before" => 2147483646,
        _ => word.parse().unwrap_or(0),
    }
}
