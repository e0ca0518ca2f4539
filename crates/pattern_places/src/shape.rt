// 11, below the header: a wrong number of fields, which has no place, or the field that is no number.
ghost use Rattle.std.specs.Prelude.{◌≡◌};
ghost use Rattle.text.specs.Split.{split};
ghost use Rattle.pattern_places.specs.Place.{no_number, malformed_at};
ghost use Rattle.line_places.specs.Place.{as_place};

use fields::Fields;
use layout::PATTERN_FIELDS;
use line_places::place_where;
use numbers::number_at;

// Is the field, other than the rule, no number?
#[tactic(auto, using(crate::proofs::ShapeLaws::number_kit))]
fn no_number(fields: &Fields<PATTERN_FIELDS>, index: usize) -> bool
    ensures { result ≡ no_number (split 32 fields.now.line.now) index }
{
    index != 1 && number_at(fields, index).is_none()
}

// The leftmost field that is no number, where the header names so many labels.
#[tactic(auto, using(crate::proofs::ShapeLaws::malformed_kit))]
pub fn malformed_place(line: &[u8], labels: usize) -> Option<usize>
    ensures { result ≡ as_place (malformed_at labels (split 32 line.now)) }
{
    let fields: Fields<PATTERN_FIELDS> = Fields::split(line);
    match fields.len().checked_sub(4) {
        Some(count) if count == labels => place_where(&fields, |i| no_number(&fields, i)),
        _ => None,
    }
}
