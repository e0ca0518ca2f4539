// 15 and 16: the next set at fault.
ghost use Rattle.std.specs.Prelude.{◌≡◌, ◌≤◌};
ghost use Rattle.layout.specs.Layout.{most_states};
ghost use Rattle.text.specs.Split.{split};
ghost use Rattle.line_places.specs.Place.{as_place};
ghost use Rattle.pattern_places.specs.Place.{stray_set, straying_at, ambiguous_set, ambiguous_at};

use crate::value_in;
use fields::Fields;
use layout::PATTERN_FIELDS;
use line_places::place_where;

// Is the field a next set with a state that the bead, of so many states, lacks?
#[tactic(auto, using(crate::proofs::NextLaws::stray_kit))]
fn stray_set(fields: &Fields<PATTERN_FIELDS>, states: u16, index: usize) -> bool
    requires { states ≤ most_states }
    ensures { result ≡ stray_set states (split 32 fields.now.line.now) index }
{
    index >= 4 && !sets::within(value_in(fields, index), states)
}

// The leftmost next set with a state that the bead, of so many states, lacks. A bead of 16 states or more lacks none that a number can name.
#[tactic(auto, using(crate::proofs::NextLaws::straying_kit))]
pub fn straying_place(line: &[u8], states: usize) -> Option<usize>
    ensures { result ≡ as_place (straying_at states (split 32 line.now)) }
{
    if states >= layout::MOST_STATES {
        return None;
    }
    let fields: Fields<PATTERN_FIELDS> = Fields::split(line);
    place_where(&fields, |i| stray_set(&fields, states as u16, i))
}

// Is the field a next set without exactly one state?
#[tactic(auto, using(crate::proofs::NextLaws::ambiguous_kit))]
fn ambiguous_set(fields: &Fields<PATTERN_FIELDS>, index: usize) -> bool
    ensures { result ≡ ambiguous_set (split 32 fields.now.line.now) index }
{
    index >= 4 && !sets::single(value_in(fields, index))
}

// The leftmost next set without exactly one state.
pub fn ambiguous_place(line: &[u8]) -> Option<usize>
    ensures { result ≡ as_place (ambiguous_at (split 32 line.now)) }
{
    let fields: Fields<PATTERN_FIELDS> = Fields::split(line);
    place_where(&fields, |i| ambiguous_set(&fields, i))
}
