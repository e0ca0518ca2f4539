// 13: the bead, the state or final, after the line before.
ghost use Rattle.std.specs.Prelude.{◌≡◌};
ghost use Rattle.text.specs.Split.{split};
ghost use Rattle.line_places.specs.Place.{as_place};
ghost use Rattle.pattern_row.specs.Fields.{row_of};
ghost use Rattle.pattern_places.specs.Place.{bead_wrong, state_wrong, disordered_at};
ghost use Rattle.row_places.specs.Said.{row_said, rows_said};

use crate::value_in;
use fields::Fields;
use layout::PATTERN_FIELDS;
use line_places::place_at;

// Of which bead and which state a line speaks; 0 where the field is no number.
#[derive(Clone, Copy, PartialEq, Eq, Debug)]
pub struct Said {
    pub bead: u16,
    pub state: u16,
}

// What the line says.
pub fn said_in(line: &[u8]) -> Said
    ensures bead { result.bead ≡ (row_of (split 32 line.now)).bead }
    ensures state { result.state ≡ (row_of (split 32 line.now)).state }
{
    let fields: Fields<PATTERN_FIELDS> = Fields::split(line);
    Said {
        bead: value_in(&fields, 0),
        state: value_in(&fields, 2),
    }
}

// Is the bead over 8, or neither the last line's bead nor one more? In the first line below the header: is it not 1?
fn bead_wrong(said: Said, before: Option<Said>) -> bool
    ensures { result ≡ bead_wrong (rows_said before) (row_said said) }
{
    match before {
        None => said.bead != 1,
        Some(last) => {
            usize::from(said.bead) > layout::MOST_BEADS
                || (said.bead != last.bead && u32::from(said.bead) != u32::from(last.bead) + 1)
        }
    }
}

// Is the state over 15, or not the next one of the same bead, or not 0 in another bead and in the first line below the header?
fn state_wrong(said: Said, before: Option<Said>) -> bool
    ensures { result ≡ state_wrong (rows_said before) (row_said said) }
{
    match before {
        None => said.state != 0,
        Some(last) => {
            usize::from(said.state) >= layout::MOST_STATES
                || if said.bead == last.bead {
                    u32::from(said.state) != u32::from(last.state) + 1
                } else {
                    said.state != 0
                }
        }
    }
}

// The place at fault after the line before, which the first line below the header does not have: the bead, else the state, else final.
#[tactic(auto, using(crate::proofs::OrderLaws::place_kit))]
pub fn disordered_place(line: &[u8], before: Option<Said>) -> Option<usize>
    ensures { result ≡ as_place (disordered_at (rows_said before) (split 32 line.now)) }
{
    let said = said_in(line);
    if bead_wrong(said, before) {
        place_at(line, 0)
    } else if state_wrong(said, before) {
        place_at(line, 2)
    } else {
        place_at(line, 3)
    }
}
