// The log reader on the texts of `cases.txt`, a line a case; at the end, how many cases got each answer.
//
// A line of the file has its columns parted by tabs: what is tried, the label count, the text as a script (`script::expand`),
// and, where it is not the whole buffer, how many numbers of the buffer are lent. The buffer has six numbers more than the format uses.
#![tactic(auto)]

use std::io;
use trial::column;

fn main(rt: HostRuntime) -> io::Result<()> {
    outcome::try_cases(&rt, "cases.txt", |line| try_case(&rt, line))
}

// The answer's numbers, and what the call left in the buffer.
fn try_case(rt: &(impl Print + AllocGlobal), line: &str) -> io::Result<u16> {
    let labels = column(line, 1).parse().unwrap_or(0);
    let text = script::expand(rt.alloc(), column(line, 2), 66000)?;
    let call = |log: &mut [u16]| log_reader::read_log(&text, labels, log);
    let (answer, _) = outcome::try_marked(rt, column(line, 0), 7176, column(line, 3), call)?;
    println!(rt)?;
    Ok(answer.number)
}
