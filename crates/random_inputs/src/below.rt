// Sets of numbers below n, and remainders, from a drawn number.
use crate::sets::only;

// The set of all.
pub fn all_below(n: u16) -> u16 {
    only(n).wrapping_sub(1)
}

// Any set.
pub fn any_below(n: u16, x: u16) -> u16 {
    x & all_below(n)
}

// The set of one; none where n is 0.
pub fn one_below(n: u16, x: u16) -> u16 {
    x.checked_rem(n).map_or(0, only)
}

// The remainder; 0 where n is 0.
pub fn reduced(x: u16, n: u16) -> u16 {
    x.checked_rem(n).unwrap_or(0)
}
