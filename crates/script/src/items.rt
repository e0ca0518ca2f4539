// What a script begins with, and what follows it: a repetition, bytes that stand for themselves, an
// escape for one byte, or, in a body, an index plus or less a number.
ghost use Rattle.std.specs.Iterator.{at_most};
ghost use Rattle.std.specs.Prelude.{◌<◌, ◌≤◌, length, IfSome};

use trial::number;

// What a script repeats, or the bytes of a text.
#[derive(Clone, Copy)]
pub enum Part<'a> {
    Repeat(Repeat<'a>),
    Bytes(Bytes<'a>),
}

// The parts of a script, each of a byte or more.
#[derive(Drop)]
pub struct Parts<'a>(pub &'a [u8]);

impl<'a> Iterator for Parts<'a> {
    type Item = Part<'a>;

    ghost remaining = { λ s. at_most (length s.0.now) };

    fn next(&mut self) -> Option<Part<'a>> {
        let (part, rest) = read_part(self.0)?;
        self.0 = rest;
        Some(part)
    }
}

fn read_part(script: &[u8]) -> Option<(Part<'_>, &[u8])>
    ensures { IfSome result (λ r. length r.1.now < length script.now) }
{
    if let Some((repeat, after)) = read_repeat(script) {
        return Some((Part::Repeat(repeat), after));
    }
    let (bytes, after) = read_bytes(script)?;
    Some((Part::Bytes(bytes), after))
}

// An item of a body.
#[derive(Clone, Copy)]
pub enum Item<'a> {
    Bytes(Bytes<'a>),
    IndexPlus(u64),
    IndexLess(u64),
}

// A run of bytes that stand for themselves, taken as one so that they are appended at once, or a single byte.
#[derive(Clone, Copy)]
pub enum Bytes<'a> {
    Run(&'a [u8]),
    Single(u8),
}

#[derive(Clone, Copy)]
pub struct Repeat<'a> {
    pub times: u64,
    pub body: &'a [u8],
}

fn read_repeat(script: &[u8]) -> Option<(Repeat<'_>, &[u8])>
    ensures { IfSome result (λ r. length r.1.now < length script.now) }
{
    let rest @ [b'0'..=b'9', ..] = script.strip_prefix(br"\*")? else {
        return None;
    };
    let (times, rest) = read_number(rest);
    let rest = rest.strip_prefix(b"{")?;
    let end = rest.iter().position(|b| *b == b'}')?;
    let (body, after) = rest.split_at(end);
    Some((Repeat { times, body }, &after[1..]))
}

// The items of a body, each of a byte or more.
#[derive(Drop)]
pub struct Items<'a>(pub &'a [u8]);

impl<'a> Iterator for Items<'a> {
    type Item = Item<'a>;

    ghost remaining = { λ s. at_most (length s.0.now) };

    fn next(&mut self) -> Option<Item<'a>> {
        let (item, rest) = read_item(self.0)?;
        self.0 = rest;
        Some(item)
    }
}

fn read_item(body: &[u8]) -> Option<(Item<'_>, &[u8])>
    ensures { IfSome result (λ r. length r.1.now < length body.now) }
{
    match body {
        [b'\\', b'i', rest @ ..] => {
            let (k, after) = read_number(rest);
            Some((Item::IndexPlus(k), after))
        }
        [b'\\', b'p', rest @ ..] => {
            let (k, after) = read_number(rest);
            Some((Item::IndexLess(k), after))
        }
        _ => {
            let (bytes, after) = read_bytes(body)?;
            Some((Item::Bytes(bytes), after))
        }
    }
}

// The number whose digits the script begins with, 0 where it begins with none.
fn read_number(script: &[u8]) -> (u64, &[u8])
    ensures { length result.1.now ≤ length script.now }
{
    let n = script.iter().take_while(|b| b.is_ascii_digit()).count();
    let (digits, after) = script.split_at(n);
    (number(digits), after)
}

// The byte that an escape stands for, or else a byte and those after it up to the next backslash.
fn read_bytes(script: &[u8]) -> Option<(Bytes<'_>, &[u8])>
    ensures { IfSome result (λ r. length r.1.now < length script.now) }
{
    if let Some((byte, after)) = read_escape(script) {
        return Some((Bytes::Single(byte), after));
    }
    let (byte, rest) = script.split_first()?;
    let n = rest.iter().take_while(|b| **b != b'\\').count();
    if n == 0 {
        return Some((Bytes::Single(*byte), rest));
    }
    let (run, after) = script.split_at(n + 1);
    Some((Bytes::Run(run), after))
}

fn read_escape(script: &[u8]) -> Option<(u8, &[u8])>
    ensures { IfSome result (λ r. length r.1.now < length script.now) }
{
    match script {
        [b'\\', b'n', after @ ..] => Some((b'\n', after)),
        [b'\\', b'r', after @ ..] => Some((b'\r', after)),
        [b'\\', b't', after @ ..] => Some((b'\t', after)),
        [b'\\', b'\\', after @ ..] => Some((b'\\', after)),
        [b'\\', b'x', high, low, after @ ..] => {
            let byte = hex_digit(*high)? << 4 | hex_digit(*low)?;
            Some((byte, after))
        }
        _ => None,
    }
}

// The value of a hexadecimal digit.
fn hex_digit(b: u8) -> Option<u8> {
    match b {
        b'0'..=b'9' => Some(b - b'0'),
        b'A'..=b'F' => Some(b - b'A' + 10),
        b'a'..=b'f' => Some(b - b'a' + 10),
        _ => None,
    }
}
