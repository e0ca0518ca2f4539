// Texts put together in a buffer. These functions stood in `trial`; only these cases use them.
ghost use Rattle.std.specs.Prelude.{◌≤◌, length};

use crate::{argument, show};
use std::io;

// Writes from an index on as much as there is room for, and answers the next free index, which is the buffer's length where it is
// full. An index past the end counts as the end.
pub fn append(buf: &mut [u8], at: usize, bytes: &[u8]) -> usize
    ensures { result ≤ length buf.new }
{
    let at = at.min(buf.len());
    let n = bytes.len().min(buf.len() - at);
    buf[at..at + n].copy_from_slice(&bytes[..n]);
    at + n
}

// The four bytes of the buffer are given, then the byte that is appended.
pub fn show_single(rt: &impl Print, what: &str, bytes: &str, at: &str) -> io::Result<()> {
    let bytes = bytes.as_bytes();
    let mut buf = [b'.'; 4];
    append(&mut buf, 0, bytes);
    let n = append(&mut buf, argument(at) as usize, &[trial::get(bytes, 4)]);
    show(rt, what, &buf, n)
}

pub fn show_run(rt: &impl Print, what: &str, at: &str, bytes: &str) -> io::Result<()> {
    let mut buf = [b'.'; 4];
    let n = append(&mut buf, argument(at) as usize, bytes.as_bytes());
    show(rt, what, &buf, n)?;
    print!(rt; "  in front of that index: ")?;
    rt.write_all(trial::front(&buf, n))?;
    println!(rt)
}

pub fn show_number(
    rt: &(impl Print + AllocGlobal),
    what: &str,
    at: &str,
    n: &str,
) -> io::Result<()> {
    let mut buf = [b'.'; 22];
    let digits = argument(n).to_string(rt.alloc())?;
    let next = append(&mut buf, argument(at) as usize, digits.as_bytes());
    show(rt, what, &buf, next)
}

// As many of four letters as are asked for: one more than there is room for.
pub fn show_repeat(rt: &impl Print, what: &str, times: &str) -> io::Result<()> {
    let mut buf = [b'.'; 4];
    let letters = trial::front(b"rrrr", argument(times) as usize);
    let n = append(&mut buf, 1, letters);
    show(rt, what, &buf, n)
}
