// The byte of a header text that the pattern's writer refuses.
ghost use Rattle.std.specs.Prelude.{◌≡◌};
ghost use Rattle.pattern_byte.specs.Header.{header_text_at};

use fields::first_length;
use pattern_line::refusals::Refusal;

// 0 where it is not one line with its newline; else as where a reader refuses that line as a header.
#[tactic(auto, using(crate::proofs::HeaderLaws::header_kit))]
pub fn header_byte(header: &[u8]) -> u16
    ensures { result ≡ header_text_at header.now }
{
    let n = first_length(header, b'\n');
    if n + 1 == header.len() {
        crate::byte_of(header, u16::from(Refusal::Header), 1)
    } else {
        0
    }
}
