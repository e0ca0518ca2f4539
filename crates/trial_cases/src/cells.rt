// Slices at any index.
use crate::{argument, show};
use std::fmt::Display;
use std::io;

pub fn show_get<T: Copy + Default + Display>(
    rt: &impl Print,
    what: &str,
    s: &[T],
    i: usize,
) -> io::Result<()> {
    println!(rt; "{what}: {}", trial::get(s, i))
}

// The three numbers after 7 is put at an index.
pub fn show_write(rt: &impl Print, what: &str, i: &str) -> io::Result<()> {
    let mut s = [10u16, 11, 12];
    trial::put(&mut s, argument(i) as usize, 7);
    let [x, y, z] = s;
    println!(rt; "{what}: {x} {y} {z}")
}

// The three bytes after `z` is put at an index.
pub fn show_put_byte(rt: &impl Print, what: &str, i: &str) -> io::Result<()> {
    let mut s = *b"abc";
    trial::put(&mut s, argument(i) as usize, b'z');
    show(rt, what, &s, 3)
}
