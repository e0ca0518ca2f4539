// Where in a line, and where in a text: places of fields and of bytes in a line, lines by their number.
#![tactic(auto)]

ghost use Rattle.std.specs.Prelude.{◌≡◌, ◌<◌, ℕ, Bool, length};
ghost use Rattle.text.specs.Split.{split};
ghost use Rattle.line_places.specs.Place.{as_place, place_at, place_where, Computes, unprintable_place, ended_line, found_line};

use fields::{Fields, find_field};
use text::lines::is_printable;

// The place, from 1, of the field with this index; none where the line lacks it.
#[tactic(auto, using(crate::proofs::PlaceLaws::place_kit))]
pub fn place_at(line: &[u8], index: usize) -> Option<usize>
    ensures { result ≡ as_place (place_at (split 32 line.now) index) }
{
    let (start, _) = find_field(line, b' ', index)?;
    Some(start + 1)
}

// The place of the leftmost field that passes a test of its index. Whatever function the test computes. The closure's own clause lets the
// test be asked below the length alone.
pub fn place_where<const N: usize, F: Fn(usize) -> bool>(
    fields: &Fields<N>,
    test: F,
) -> Option<usize>
    requires { (i : ℕ) → i < length (split 32 fields.now.line.now) → F.pre test i }
    ensures { (f : ℕ → Bool) → Computes (F.post test) (length (split 32 fields.now.line.now)) f → result ≡ as_place (place_where f (split 32 fields.now.line.now)) }
{
    let index = (0..fields.len()).find(
        move |&i|
            requires { F.pre test i }
        { test(i) },
    )?;
    place_at(fields.line, index)
}

// The place, from 1, of the first byte outside 32 to 126.
#[tactic(auto, using(crate::proofs::PlaceLaws::unprintable_kit))]
pub fn unprintable_place(bytes: &[u8]) -> Option<usize>
    ensures { result ≡ as_place (unprintable_place bytes.now) }
{
    let index = bytes.iter().position(|b| !is_printable(*b))?;
    Some(index + 1)
}

// Where the line with this number, from 1 on, begins and ends, if it has its newline.
#[tactic(auto, using(crate::proofs::LineLaws::find_kit))]
fn find_line(text: &[u8], number: usize) -> Option<(usize, usize)>
    ensures { result ≡ ended_line text.now number }
{
    let (start, end) = find_field(text, b'\n', number.saturating_sub(1))?;
    if end < text.len() {
        Some((start, end))
    } else {
        None
    }
}

// The line with this number, of which at most so many bytes may stand before the newline: where it begins and ends in the text; or, where
// it is not whole, the place at fault, if it is a single one.
#[tactic(auto, using(crate::proofs::LineLaws::inspect_kit))]
pub fn inspect_line(
    text: &[u8],
    number: usize,
    most: usize,
) -> Result<(usize, usize), Option<usize>>
    ensures { result ≡ found_line most text.now number }
{
    let Some((start, end)) = find_line(text, number) else {
        return Err(None);
    };
    if end - start > most {
        return Err(None);
    }
    match unprintable_place(&text[start..end]) {
        None => Ok((start, end)),
        Some(place) => Err(Some(place)),
    }
}
