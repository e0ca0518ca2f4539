// The bodies of repetitions, and bytes.
use crate::items::{Bytes, Item, Items, Repeat};
use std::alloc::Global;
use std::io;
use std::io::Write;

// Appends the body for each index, until there are `most` bytes. Its items are read once for all; one that is a byte is put at once.
pub fn put_repeat(
    alloc: Global,
    text: &mut Vec<u8>,
    repeat: Repeat<'_>,
    most: usize,
) -> io::Result<()> {
    let items: Vec<Item> = Items(repeat.body).collect(alloc)?;
    if let [Item::Bytes(Bytes::Single(byte))] = items.as_slice() {
        let end = text.len().saturating_add(repeat.times as usize).min(most);
        return Ok(text.resize(end, *byte)?);
    }
    for index in 0..repeat.times {
        if text.len() >= most {
            break;
        }
        put_items(text, &items, index)?;
    }
    Ok(())
}

// Appends the items of a body at this index.
fn put_items(text: &mut Vec<u8>, items: &[Item<'_>], index: u64) -> io::Result<()> {
    for item in items {
        match *item {
            Item::Bytes(bytes) => put_bytes(text, bytes)?,
            Item::IndexPlus(k) => write!(text, "{}", index.wrapping_add(k))?,
            Item::IndexLess(k) => write!(text, "{}", index.saturating_sub(k))?,
        }
    }
    Ok(())
}

pub fn put_bytes(text: &mut Vec<u8>, bytes: Bytes<'_>) -> io::Result<()> {
    match bytes {
        Bytes::Run(run) => Ok(text.extend_from_slice(run)?),
        Bytes::Single(byte) => Ok(text.push(byte)?),
    }
}
