// Scripts: a line of printable bytes that expands to the bytes of a text.
//
// A byte stands for itself, but for the escapes: `\n` is a newline, `\r` a carriage return, `\t` a
// tab, `\\` a backslash, `\xHH` the byte with these two hexadecimal digits, and `\*N{BODY}` the body,
// up to the next `}`, N times over. In a body `\iK` is the repetition's index, from 0, plus K, and
// `\pK` the index less K, or 0 where that would be negative; without digits K is 0. A backslash that
// begins none of these stands for itself.
#![tactic(auto)]

ghost use Rattle.std.specs.Prelude.{◌≤◌, IfOk, vec_len};

use items::{Part, Parts};
use std::alloc::Global;
use std::rt::Files;
use std::{fs, io};

mod bodies;
mod items;

// The file where the script is `=`, or else what the script expands to, but no more than the first `most` bytes.
pub fn load(
    rt: &(impl Files + AllocGlobal),
    script: &str,
    path: &str,
    most: usize,
) -> io::Result<Vec<u8>>
    ensures { IfOk result (λ text. vec_len text ≤ most) }
{
    if script != "=" {
        return expand(rt.alloc(), script, most);
    }
    let mut text = fs::read(rt, path)?;
    text.truncate(most);
    Ok(text)
}

// What the script expands to, but no more than its first `most` bytes.
pub fn expand(alloc: Global, script: &str, most: usize) -> io::Result<Vec<u8>>
    ensures { IfOk result (λ text. vec_len text ≤ most) }
{
    let mut text = Vec::new(alloc);
    for part in Parts(script.as_bytes()) {
        if text.len() >= most {
            break;
        }
        match part {
            Part::Repeat(repeat) => bodies::put_repeat(alloc, &mut text, repeat, most)?,
            Part::Bytes(bytes) => bodies::put_bytes(&mut text, bytes)?,
        }
    }
    text.truncate(most);
    Ok(text)
}
