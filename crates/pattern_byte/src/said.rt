// What the text says, as far as a place depends on more than its own line: the labels of the header, the line before, the states of a bead.
ghost use Rattle.std.specs.Prelude.{◌≡◌, cond, eqb, get_or, []};
ghost use Rattle.text.specs.Split.{split};
ghost use Rattle.line_places.specs.Place.{as_place};
ghost use Rattle.pattern_store.specs.Next.{states_of};
ghost use Rattle.pattern_places.specs.Place.{disordered_at};
ghost use Rattle.pattern_byte.specs.Byte.{labels_named, rows_below, row_before};

use fields::{field_count, find_field, first_length};
use row_places::order::{self, said_in};

// The bytes of the line with this index; one that is not there counts as empty.
#[tactic(auto, using(crate::proofs::SaidLaws::bytes_kit))]
fn line_in(text: &[u8], index: usize) -> &[u8]
    ensures { result.now ≡ get_or (split 10 text.now) index [] }
{
    match find_field(text, b'\n', index) {
        None => b"",
        Some((start, end)) => &text[start..end],
    }
}

// How many labels the text's header names.
#[tactic(auto, using(crate::proofs::SaidLaws::labels_kit))]
pub fn labels_in(text: &[u8]) -> usize
    ensures { result ≡ labels_named text.now }
{
    field_count(line_in(text, 0), b' ').saturating_sub(4)
}

// How many states the bead has: as many as lines below the header speak of it. The place goes on by a line's length, so no `for` counts it; a
// split at the newlines would give one part too many, behind the last.
#[tactic(auto, using(crate::proofs::SaidLaws::states_kit))]
pub fn states_in(text: &[u8], bead: u16) -> usize
    ensures { result ≡ states_of (rows_below text.now) bead }
{
    let header = first_length(text, b'\n');
    let mut at = header + 1;
    let mut count = 0;
    while at < text.len() {
        let n = first_length(&text[at..], b'\n');
        let said = said_in(&text[at..at + n]);
        at = at + n + 1;
        if said.bead == bead {
            count += 1;
        }
    }
    count
}

// 13 in the line with this number, whose bytes these are. In line 1 it says that nothing follows, and has no place.
#[tactic(auto, using(crate::proofs::SaidLaws::order_kit))]
pub fn disordered_place(text: &[u8], line: usize, bytes: &[u8]) -> Option<usize>
    ensures { result ≡ as_place (cond (eqb line 1) 0 (disordered_at (row_before text.now line) (split 32 bytes.now))) }
{
    if line == 1 {
        None
    } else if line < 3 {
        order::disordered_place(bytes, None)
    } else {
        order::disordered_place(bytes, Some(said_in(line_in(text, line - 2))))
    }
}
