// What the two writers differ in.
use answer::Answer;
use std::alloc::{AllocError, Global};
use text_changes::Text;
use trial::Random;

// A room, and what its writer and its reader are lent beside it.
pub trait Written: Sized + Drop {
    const TEXT: Text;

    // How many bytes the longest text has.
    const LONGEST: usize;

    // The refusals that are counted of a room with one number changed, each with its name; at most two.
    fn refusals() -> &'static [(u16, &'static str)];

    // The index of the trial says how it is drawn.
    fn draw(alloc: Global, i: u64, random: &mut Random) -> Result<Self, AllocError>;

    fn numbers(&self) -> &[u16];

    // Adds a power of two to one number.
    fn change(&mut self, random: &mut Random);

    // The library's calls, without their contracts: nothing here rests on them.
    fn write(&self, text: &mut [u8]) -> Answer;

    fn read(&self, text: &[u8], numbers: &mut [u16]) -> Answer;
}
