// The refusals that need all rows: over the numbers of a pattern buffer, slot by slot, in the order of the rows.
// The slot `MOST_STATES * j + q` belongs to the state q of the bead with place j.
#![tactic(auto)]

ghost use Rattle.std.specs.Prelude.{◌≡◌, ◌≤◌, ◌<◌};
ghost use Rattle.layout.specs.Layout.{most_states, all_states};
ghost use Rattle.pattern_store.specs.Next.{all_within, all_single};
ghost use Rattle.pattern_late.specs.Late.{Bounded, slot_said, judge_slot, late_said, late_faults};

use pattern_line::refusals::Refusal;
use text::faults::{Fault, in_line};

// Has every set only states below n?
#[tactic(auto, unfolding(pattern_store::specs::Next::all_within))]
fn all_within(sets: &[u16], n: u16) -> bool
    requires { n ≤ most_states }
    ensures { result ≡ all_within n sets.now }
{
    sets.iter().all(|set| sets::within(*set, n))
}

// Has every set exactly one state?
#[tactic(auto, unfolding(pattern_store::specs::Next::all_single))]
fn all_single(sets: &[u16]) -> bool
    ensures { result ≡ all_single sets.now }
{
    sets.iter().all(|set| sets::single(*set))
}

// 15, then 16, of the next sets of a slot: one for each label.
#[tactic(auto, using(crate::proofs::LateLaws::slot_kit))]
fn judge_slot(buffer: &[u16], slot: usize) -> Result<(), Refusal>
    requires { Bounded buffer.now × (slot < all_states) }
    ensures { slot_said result ≡ judge_slot buffer.now tt 0 slot }
{
    let j = slot / layout::MOST_STATES;
    let from = layout::NEXT_SETS + layout::SETS_A_STATE * slot;
    let sets = &buffer[from..from + usize::from(buffer[0])];
    if !all_within(sets, buffer[layout::STATE_COUNTS + j]) {
        Err(Refusal::NextState)
    } else if rules::needs_one_next(buffer[layout::RULES + j]) && !all_single(sets) {
        Err(Refusal::NextCount)
    } else {
        Ok(())
    }
}

// The refusal of the first slot at fault, with its line; the first row stands in line 2. It takes a slice, since its caller may lend more
// than a pattern's numbers. By slots, as the definition: the line is counted over the states of all beads.
#[tactic(auto, using(crate::proofs::LateLaws::late_kit))]
pub fn find_late(buffer: &[u16]) -> Result<(), Fault<Refusal>>
    requires { Bounded buffer.now }
    ensures { late_said result ≡ late_faults buffer.now }
{
    let mut line = 2;
    for slot in 0..layout::ALL_STATES {
        let (j, q) = (slot / layout::MOST_STATES, slot % layout::MOST_STATES);
        if q < usize::from(buffer[layout::STATE_COUNTS + j]) {
            in_line(judge_slot(buffer, slot), line)?;
            line += 1;
        }
    }
    Ok(())
}
