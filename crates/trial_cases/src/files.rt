// Files and scripts read, and buffers marked.
use crate::appended::append;
use crate::{argument, show};
use answer::Answer;
use std::rt::Files;
use std::{fs, io};

// The start of the file, as much as there is room for; nothing where it cannot be read.
pub fn show_load(
    rt: &(impl Files + Print + AllocGlobal),
    what: &str,
    path: &str,
) -> io::Result<()> {
    let mut buf = [b'.'; 8];
    let n = match fs::read(rt, path) {
        Ok(text) => append(&mut buf, 0, &text),
        Err(_) => 0,
    };
    show(rt, what, &buf, n)
}

pub fn show_marks(rt: &(impl Print + AllocGlobal)) -> io::Result<()> {
    let mut s = outcome::marked(rt.alloc(), 3)?;
    show_buffer(rt, "marked buffer", &s)?;
    trial::put(&mut s, 2, 1);
    show_buffer(rt, "marked buffer with its last number changed", &s)?;
    show_buffer(rt, "empty buffer", &[])
}

fn show_buffer(rt: &impl Print, what: &str, s: &[u16]) -> io::Result<()> {
    let answer = Answer {
        number: 0,
        line: 1,
        byte: 241,
        count: 65535,
    };
    outcome::print_answer(rt, what, answer)?;
    outcome::print_buffer(rt, 0, s)?;
    outcome::print_buffer(rt, 10, s)?;
    println!(rt)
}

// Expands into as many bytes as there is room for, and shows them in front of a buffer of 32.
pub fn show_script(
    rt: &(impl Print + AllocGlobal),
    what: &str,
    script: &str,
    room: &str,
) -> io::Result<()> {
    let text = script::expand(rt.alloc(), script, argument(room) as usize)?;
    let mut buf = [b'.'; 32];
    let next = append(&mut buf, 0, &text);
    show(rt, what, &buf, next)
}
