// The byte of a refused pattern text: the place at fault in the line at fault, found again from the text, the refusal's number and its line.
// It is asked for after a refusal only, so that reading a good text pays nothing for it.
#![tactic(auto)]

mod header;
mod place;
mod said;

ghost use Rattle.std.specs.Prelude.{◌≡◌};
ghost use Rattle.pattern_byte.specs.Byte.{pattern_byte};

pub use header::header_byte;

// 0 where no single place is at fault. It answers for every number, as its definition does, so it takes no enum, which has fewer.
#[tactic(auto, using(crate::proofs::PlaceLaws::byte_kit))]
pub fn byte_of(text: &[u8], number: u16, line: u16) -> u16
    ensures { result ≡ pattern_byte text.now number line }
{
    if number < 11 {
        return 0;
    }
    place::ranked_place(text, number, usize::from(line)).unwrap_or(0) as u16
}
