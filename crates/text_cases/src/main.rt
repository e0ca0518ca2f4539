// Functions of `text`, `fields` and `numbers` at their edges, on the cases of `cases.txt`, a line a case; at the end, how many cases of each kind
// were tried.
//
// A line of the file has its columns parted by tabs: what is tried, the kind, the bytes as a script (`script::expand`), and what the
// kind takes besides them: the other bytes of a comparison.
#![tactic(auto)]

use kinds::Kind;
use outcome::Tally;
use std::io;
use trial::column;

mod kinds;
mod show;

fn main(rt: HostRuntime) -> io::Result<()> {
    let mut tally = Tally::new(rt.alloc());
    trial::each_line(&rt, "cases.txt", |line| try_case(&rt, line, &mut tally))?;
    print!(rt; "{tally}")
}

fn try_case(
    rt: &(impl Print + AllocGlobal),
    line: &str,
    tally: &mut Tally<Kind>,
) -> io::Result<()> {
    print!(rt; "{}: ", column(line, 0))?;
    let Ok(kind) = column(line, 1).parse() else {
        return println!(rt; "NO SUCH KIND");
    };
    let bytes = script::expand(rt.alloc(), column(line, 2), 1100)?;
    match kind {
        Kind::Number => show::number(rt, &bytes)?,
        Kind::Line => show::line(rt, &bytes)?,
        Kind::Spaces => show::fields(rt, &bytes, b' ')?,
        Kind::Commas => show::fields(rt, &bytes, b',')?,
        Kind::Missing => show::place(rt, &bytes, b' ', usize::MAX)?,
        Kind::Equal => show::equal(rt, &bytes, column(line, 3).as_bytes())?,
    }
    println!(rt)?;
    Ok(tally.add(kind)?)
}
