// The rows of the result buffer. Each number up to a row's last one that is not 0 is printed, so a number in an unused place shows.
use outcome::{is_marked_from, print_claim, sum_of_sums};
use std::io;
use trial::{front, part};

// The rows, ` v:prefixes:p0,p1` and so on; of a log of more than 16 steps the sum of sums of the 10240 numbers in their place.
pub fn print_rows(rt: &impl Print, steps: u16, res: &[u16]) -> io::Result<()> {
    let steps = usize::from(steps);
    if steps > 16 {
        print!(rt; " sum {}", sum_of_sums(front(res, 10240)))?;
    } else {
        print!(rt; " rows")?;
        for (v, row) in res.chunks(10).take(steps).enumerate() {
            print_row(rt, v, row)?;
        }
    }
    let rest = part(res, steps * 10, 10240);
    print_claim(rt, "; rest 0", rest.iter().all(|n| *n == 0))?;
    print_claim(rt, ", guard kept", is_marked_from(res, 10240))
}

fn print_row(rt: &impl Print, v: usize, row: &[u16]) -> io::Result<()> {
    print!(rt; " {v}")?;
    let last_used = row.iter().rposition(|n| *n != 0).unwrap_or(0);
    for (i, n) in row.iter().enumerate().take(last_used + 1) {
        let sign = if i < 2 { ':' } else { ',' };
        print!(rt; "{sign}{n}")?;
    }
    Ok(())
}
