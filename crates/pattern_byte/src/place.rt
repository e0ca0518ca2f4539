// The place at fault in a line of a pattern text, by the refusal's number.
ghost use Rattle.std.specs.Prelude.{◌≡◌};
ghost use Rattle.layout.specs.Layout.{most_line};
ghost use Rattle.line_places.specs.Place.{as_place, line_at, ranked_at};
ghost use Rattle.pattern_byte.specs.Byte.{place_in};

use crate::said::{disordered_place, labels_in, states_in};
use line_places::{inspect_line, place_at};
use pattern_places::header::header_place;
use pattern_places::shape::malformed_place;
use row_places::next::{ambiguous_place, straying_place};
use row_places::order::said_in;

// In the fields of the line with this number, whose bytes these are. By number, for the reason that stands at `byte_of`.
#[tactic(auto, using(crate::proofs::PlaceLaws::in_kit))]
fn place_in(text: &[u8], number: u16, line: usize, bytes: &[u8]) -> Option<usize>
    ensures { result ≡ as_place (place_in text.now number line bytes.now) }
{
    match number {
        11 => malformed_place(bytes, labels_in(text)),
        12 => header_place(bytes),
        13 => disordered_place(text, line, bytes),
        14 => place_at(bytes, 1),
        15 => straying_place(bytes, states_in(text, said_in(bytes).bead)),
        16 => ambiguous_place(bytes),
        _ => None,
    }
}

// What makes the line not whole ranks before what is wrong in its fields.
#[tactic(auto, using(crate::proofs::PlaceLaws::line_kit))]
pub fn ranked_place(text: &[u8], number: u16, line: usize) -> Option<usize>
    ensures { result ≡ as_place (ranked_at most_line (line_at text.now line) (place_in text.now number line (line_at text.now line).bytes)) }
{
    match inspect_line(text, line, layout::MOST_LINE) {
        Err(place) => place,
        Ok((start, end)) => place_in(text, number, line, &text[start..end]),
    }
}
