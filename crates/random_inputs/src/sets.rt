// Sets of the numbers below 16, a bit each, just as the rooms hold them: a type of their own would be converted at each read and write.

// Is i a member of the set?
pub fn has(set: u16, i: u16) -> bool {
    set & only(i) != 0
}

// The set of i alone; none where i is over 15.
pub fn only(i: u16) -> u16 {
    if i < 16 { 1 << i } else { 0 }
}
