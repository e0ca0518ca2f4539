// 12: the name at fault in the header.
ghost use Rattle.std.specs.Prelude.{◌≡◌, [], ◌<◌, length, get_or};
ghost use Rattle.text.specs.Split.{split};
ghost use Rattle.pattern_header.specs.Header.{among};
ghost use Rattle.pattern_places.specs.Place.{labels_before, wrong_name, header_at};
ghost use Rattle.line_places.specs.Place.{as_place};

use fields::Fields;
use layout::PATTERN_FIELDS;
use line_places::place_where;
use pattern_header::{column, is_name};

// Does the field stand among the labels before it?
fn stands_before(fields: &Fields<PATTERN_FIELDS>, index: usize) -> bool
    requires { index < length (split 32 fields.now.line.now) }
    ensures { result ≡ among (get_or (split 32 fields.now.line.now) index []) (labels_before (split 32 fields.now.line.now) index) }
{
    (4..index).any(|i| fields.field(index) == fields.field(i))
}

// Is the name with this index wrong?
#[tactic(auto, using(crate::proofs::HeaderLaws::wrong_kit))]
fn wrong_name(fields: &Fields<PATTERN_FIELDS>, index: usize) -> bool
    requires { index < length (split 32 fields.now.line.now) }
    ensures { result ≡ wrong_name (split 32 fields.now.line.now) index }
{
    if index < 4 {
        fields.field(index) != column(index)
    } else {
        index >= 4 + layout::MOST_LABELS
            || !is_name(fields.field(index))
            || stands_before(fields, index)
    }
}

// The leftmost name that is wrong.
pub fn header_place(line: &[u8]) -> Option<usize>
    ensures { result ≡ as_place (header_at (split 32 line.now)) }
{
    let fields: Fields<PATTERN_FIELDS> = Fields::split(line);
    place_where(&fields, |i| wrong_name(&fields, i))
}
