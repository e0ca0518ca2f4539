// The pattern reader on the texts of `cases.txt`, a line a case, and then on those of `finals.txt`, which go through the sixteen states;
// after each file, how many of its cases got each answer.
//
// A line of a file has its columns parted by tabs: what is tried; the text as a script (`script::expand`); where it is not the whole
// buffer, how many numbers of the buffer are lent; and, where it is to be shown, the bead whose final set the line ends in. The buffer
// has six numbers more than the format uses.
#![tactic(auto)]

use std::io;
use trial::column;

fn main(rt: HostRuntime) -> io::Result<()> {
    for path in ["cases.txt", "finals.txt"] {
        outcome::try_cases(&rt, path, |line| try_case(&rt, line))?;
    }
    Ok(())
}

// The answer's numbers, and what the call left in the buffer.
fn try_case(rt: &(impl Print + AllocGlobal), line: &str) -> io::Result<u16> {
    let text = script::expand(rt.alloc(), column(line, 1), 17000)?;
    let call = |pattern: &mut [u16]| pattern::read_pattern(&text, pattern);
    let (answer, pattern) = outcome::try_marked(rt, column(line, 0), 2080, column(line, 2), call)?;
    if let Ok(bead) = column(line, 3).parse::<u8>() {
        print!(rt;
            ", final set {}",
            trial::get(&pattern, 17 + usize::from(bead))
        )?;
    }
    println!(rt)?;
    Ok(answer.number)
}
