// Where a line below the header of a pattern is at fault by what it says: its bead, state or final, or its next sets.
#![tactic(auto)]

pub mod next;
pub mod order;

ghost use Rattle.std.specs.Prelude.{◌≡◌, get_or, []};
ghost use Rattle.text.specs.Split.{split};
ghost use Rattle.numbers.specs.Numbers.{value_of};

use fields::Fields;
use layout::PATTERN_FIELDS;
use numbers::number_at;

// The number in the field with this index; 0 where it is none.
fn value_in(fields: &Fields<PATTERN_FIELDS>, index: usize) -> u16
    ensures { result ≡ value_of (get_or (split 32 fields.now.line.now) index []) }
{
    number_at(fields, index).unwrap_or(0)
}
