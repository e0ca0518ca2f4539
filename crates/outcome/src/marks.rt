// Buffers of marks, in which a later change shows.
ghost use Rattle.std.specs.Prelude.{◌≡◌, IfOk, vec_len};

use std::alloc::{AllocError, Global};

// A number that a buffer can be filled with.
pub trait Mark: Copy + PartialEq + Drop {
    // The mark at this index.
    fn mark_at(i: usize) -> Self;
}

// These rise with the index, from 12345 to 62344, and begin anew.
impl Mark for u16 {
    fn mark_at(i: usize) -> u16 {
        (i % 50000 + 12345) as u16
    }
}

// These are no bytes of a text: they rise with the index from 128 to 250, and begin anew.
impl Mark for u8 {
    fn mark_at(i: usize) -> u8 {
        (i % 123 + 128) as u8
    }
}

// A buffer of n marks. It is made at its length, since `collect` would test the room at each mark.
pub fn marked<T: Mark>(alloc: Global, n: usize) -> Result<Vec<T>, AllocError>
    ensures { IfOk result (λ s. vec_len s ≡ n) }
{
    let mut s = vec![in alloc; T::mark_at(0); n]?;
    for (i, mark) in s.iter_mut().enumerate() {
        *mark = T::mark_at(i);
    }
    Ok(s)
}

// Is each number of the buffer still its mark?
pub fn is_marked<T: Mark>(s: &[T]) -> bool {
    is_marked_from(s, 0)
}

// Is each number from this index on still its mark?
pub fn is_marked_from<T: Mark>(s: &[T], from: usize) -> bool {
    s.iter()
        .enumerate()
        .skip(from)
        .all(|(i, x)| *x == T::mark_at(i))
}

// The sum, modulo 4294967296, of s[0], s[0] + s[1], s[0] + s[1] + s[2], and so on: it depends on each
// number and on its place.
pub fn sum_of_sums<T: Copy + Into<u32>>(s: &[T]) -> u32 {
    let mut sum = 0u32;
    let mut all = 0u32;
    for x in s {
        sum = sum.wrapping_add((*x).into());
        all = all.wrapping_add(sum);
    }
    all
}
