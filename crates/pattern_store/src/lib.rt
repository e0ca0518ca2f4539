// A row's numbers in the pattern buffer. That its bead and state are places of it (`Storable`) is asked by each: a line's answer is a struct of plain
// numbers, without a ghost field.
#![tactic(auto)]

ghost use Rattle.std.specs.Prelude.{◌≡◌};
ghost use Rattle.pattern_store.specs.inner.Store.{Storable, accepting_with, stored_values, stored};

use pattern_order::LineValues;

// The final set with the state, where the line says that it is final.
#[tactic(auto, using(crate::proofs::StoreLaws::accepting_kit))]
fn accepting_with(set: u16, v: LineValues) -> u16
    requires { Storable v }
    ensures { result ≡ accepting_with set v }
{
    if v.accepting == 1 {
        sets::union(set, sets::singleton(v.state))
    } else {
        set
    }
}

// Stores what a line says but for its next sets.
#[tactic(auto, using(crate::proofs::StoreLaws::values_kit))]
fn store_values(buffer: &mut [u16; layout::PATTERN_LENGTH], v: LineValues)
    requires { Storable v }
    ensures { buffer.new ≡ stored_values buffer.old v }
{
    let j = usize::from(v.bead) - 1;
    let accepting = accepting_with(buffer[layout::FINAL_SETS + j], v);
    buffer[1] = v.bead;
    buffer[layout::RULES + j] = v.rule;
    buffer[layout::STATE_COUNTS + j] = v.state + 1;
    buffer[layout::FINAL_SETS + j] = accepting;
}

// Stores what a line says, with the next sets of its labels.
#[tactic(auto, using(crate::proofs::StoreLaws::store_kit))]
pub fn store_row(
    buffer: &mut [u16; layout::PATTERN_LENGTH],
    v: LineValues,
    next: &[u16; layout::MOST_LABELS],
)
    requires { Storable v }
    ensures { buffer.new ≡ stored buffer.old v next.now }
{
    store_values(buffer, v);
    let from = layout::next_sets_at(usize::from(v.bead) - 1, usize::from(v.state));
    buffer[from..from + layout::MOST_LABELS].copy_from_slice(next);
}
