// Files of cases: a case a line, its columns parted by tabs.
ghost use Rattle.std.specs.Prelude.{◌≤◌, ◌<◌, max};

use std::rt::Files;
use std::{fs, io};

// Hands on the lines of a file one after the other, up to the first error.
pub fn each_line<F: FnMut(&str) -> io::Result<()>>(
    rt: &(impl Files + AllocGlobal),
    path: &str,
    mut visit: F,
) -> io::Result<()>
    requires pre { (f : _) (x : _) → F.pre f x }
{
    let file = fs::read_to_string(rt, path)?;
    for line in file.lines() {
        visit(line)?;
    }
    Ok(())
}

// The elements from an index up to another, neither past the end; none where they are not in order.
pub fn part<T>(s: &[T], from: usize, to: usize) -> &[T] {
    let end = to.min(s.len());
    &s[from.min(end)..end]
}

// The first n elements, all of them where n is past the end.
pub fn front<T>(s: &[T], n: usize) -> &[T] {
    part(s, 0, n)
}

// The column with this index, from 0; empty where the line has no such column.
pub fn column(line: &str, index: usize) -> &str {
    line.split('\t').nth(index).unwrap_or("")
}

// The number that the bytes spell, digit by digit; what is no digit counts as 0, and of a number over 999999999 only the first nine
// digits count.
pub fn number(digits: &[u8]) -> u64
    ensures { result < 1000000000 }
{
    digits.iter().fold(0, |value, b| with_digit(value, *b))
}

fn with_digit(value: u64, b: u8) -> u64
    ensures { result ≤ max value 999999999 }
{
    if value < 100000000 {
        value * 10 + digit(b)
    } else {
        value
    }
}

fn digit(b: u8) -> u64
    ensures { result < 10 }
{
    match b {
        b'0'..=b'9' => u64::from(b - b'0'),
        _ => 0,
    }
}
