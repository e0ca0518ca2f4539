// Files into buffers.
#![tactic(auto)]

ghost use Rattle.std.specs.Prelude.{◌+◌, ◌^◌, ◌<◌, ◌≡◌, IfOk};
ghost use Rattle.std.specs.Counts.{IsPrefixLen};
ghost use Rattle.loading.specs.Load.{after_read};

use std::io::Read;
use std::ops::ControlFlow;
use std::rt::Files;
use std::{fs, io};

// Puts the file at the start of the buffer, as much as it holds, and answers how many bytes those
// are. A file that cannot be opened, or whose reading fails anywhere, counts as empty.
pub fn load<R: Files>(rt: &R, path: &[u8], buf: &mut [u8]) -> usize
    ensures { IsPrefixLen result buf.new }
{
    match open(rt, path) {
        Some(mut file) => read_whole(&mut file, buf),
        None => 0,
    }
}

// Opens a file to be read. A path is text to the system's calls here, so bytes that are not UTF-8
// name no file.
fn open<R: Files>(rt: &R, path: &[u8]) -> Option<R::File> {
    let path = str::from_utf8(path).ok()?;
    fs::open(rt, path).ok()
}

// Reads until a read says that there is no more. What a read means is decided by `after_read` alone.
// A `loop`, since only a read's answer ends it: `read_to_end` needs the heap, which this does not
// take, and `read_exact` refuses a file that is shorter than the buffer.
fn read_whole<F: Read>(file: &mut F, buf: &mut [u8]) -> usize
    ensures { IsPrefixLen result buf.new }
{
    let mut done = 0;
    loop {
        let got = file.read(&mut buf[done..]);
        match after_read(done, got) {
            ControlFlow::Break(bytes) => return bytes,
            ControlFlow::Continue(bytes) => done = bytes,
        }
    }
}

// How many bytes the text has after a read, when it had `done` before: that is all where the read
// gave none, at the file's end or in no room, and there may be more where it gave some. A read that
// fails after some bytes leaves none: a cut text must not be judged as a whole one.
fn after_read(done: usize, got: io::Result<usize>) -> ControlFlow<usize, usize>
    requires { IfOk got (λ n. done + n < 2 ^ 64) }
    ensures { result ≡ after_read done got }
{
    match got {
        Err(_) => ControlFlow::Break(0),
        Ok(0) => ControlFlow::Break(done),
        Ok(n) => ControlFlow::Continue(done + n),
    }
}
