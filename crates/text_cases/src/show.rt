// What a function of `text`, `fields` or `numbers` answers, in words.
use std::io;
use text::lines::LineFault;

// The number up to a comma, and where reading stopped.
pub fn number(rt: &impl Print, bytes: &[u8]) -> io::Result<()> {
    match numbers::read_number(bytes, b',') {
        Ok((value, stop)) => print!(rt; "{value}, stopped at {stop}"),
        Err(stop) => print!(rt; "malformed, stopped at {stop}"),
    }
}

// The first line of a text, with at most 240 bytes before its newline.
pub fn line(rt: &impl Print, bytes: &[u8]) -> io::Result<()> {
    match text::lines::read_line(bytes, 240) {
        Ok(n) => print!(rt; "whole, length {n}"),
        Err(LineFault::Long) => print!(rt; "too long"),
        Err(LineFault::Unended) => print!(rt; "no newline"),
        Err(LineFault::Unprintable) => print!(rt; "a byte outside 32 to 126"),
    }
}

// How many fields there are, and the place of each and of the one past the last.
pub fn fields(rt: &impl Print, line: &[u8], separator: u8) -> io::Result<()> {
    let count = fields::field_count(line, separator);
    print!(rt; "{count}")?;
    for index in 0..=count {
        print!(rt; "; ")?;
        place(rt, line, separator, index)?;
    }
    Ok(())
}

pub fn place(rt: &impl Print, line: &[u8], separator: u8, index: usize) -> io::Result<()> {
    match fields::find_field(line, separator, index) {
        Some((from, to)) => print!(rt; "{index} at {from}..{to}"),
        None => print!(rt; "{index} missing"),
    }
}

// The readers compare fields with `==` of slices: every byte counts, and so does the length.
pub fn equal(rt: &impl Print, a: &[u8], b: &[u8]) -> io::Result<()> {
    if a == b {
        print!(rt; "the same")
    } else {
        print!(rt; "not the same")
    }
}
