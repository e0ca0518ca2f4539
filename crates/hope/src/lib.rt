// Hopeful states of a bead: those from which an accepting state can be reached.
#![tactic(auto)]

ghost use Rattle.std.specs.Prelude.{◌≡◌, ◌<◌, ◌≤◌, length};
ghost use Rattle.lists.specs.inner.Filled.{Filled};
ghost use Rattle.sets.specs.Sets.{set_of};
ghost use Rattle.layout.specs.Layout.{most_beads, most_states};
ghost use Rattle.entering.specs.Entering.{BeadIn};
ghost use Rattle.hope.specs.Hope.{HopefulSet, Hopes, AllBeads, onward_from, leads_into, Closed};

use entering::Bead;

// All next states of a state, over all labels.
#[tactic(auto, using(crate::proofs::HopeLaws::onward_kit))]
fn onward(bead: Bead, state: usize) -> u16
    requires { state < most_states }
    ensures { result ≡ onward_from bead.entry.pattern.now bead.entry.place state }
{
    let mut all = 0;
    for label in 0..layout::MOST_LABELS {
        all = sets::union(all, bead.next(state, label));
    }
    all
}

// The same for each state of a bead, by index, as `entering::state_values`.
#[tactic(auto, using(lists::proofs::FilledLaws::kit))]
fn all_onward(bead: Bead) -> [u16; layout::MOST_STATES]
    ensures { Filled (onward_from bead.entry.pattern.now bead.entry.place) most_states result }
{
    let mut onwards = [0u16; layout::MOST_STATES];
    for state in 0..layout::MOST_STATES {
        onwards[state] = onward(bead, state);
    }
    onwards
}

// The states with a next state in the set. The values are laid out before the loop: the compiler then looks at all states at once.
#[tactic(auto, using(crate::proofs::HopeLaws::leading_kit))]
fn leading(onwards: &[u16; layout::MOST_STATES], set: u16) -> u16
    ensures { result ≡ set_of most_states (leads_into onwards.now set) }
{
    let values = entering::state_values();
    let mut all = 0;
    for state in 0..layout::MOST_STATES {
        if sets::overlaps(onwards[state], set) {
            all = sets::union(all, values[state]);
        }
    }
    all
}

// The set grown by the states that lead into it until nothing is added. As many rounds as states are enough; were they not, all states would be
// given.
#[tactic(auto, using(crate::proofs::HopeLaws::grown_kit))]
fn grown(onwards: &[u16; layout::MOST_STATES], first: u16) -> u16
    ensures { Closed onwards.now first result }
{
    let mut set = first;
    for _ in 0..layout::MOST_STATES {
        let more = sets::union(set, leading(onwards, set));
        if more == set {
            return set;
        }
        set = more;
    }
    u16::MAX
}

// The states of a bead from which an accepting state can be reached: grown from the accepting ones.
#[tactic(auto, using(crate::proofs::HopeLaws::hopeful_set))]
fn hopeful(bead: Bead) -> u16
    requires { BeadIn bead.pattern.now bead.place }
    ensures { HopefulSet bead.entry.pattern.now bead.entry.place result }
{
    grown(&all_onward(bead), bead.accepting())
}

// The same for each bead of the pattern, by its place.
#[tactic(auto, using(crate::proofs::HopeLaws::hopes_kit))]
pub fn fill_hopes(pattern: &[u16], hopes: &mut [u16])
    requires all_beads { AllBeads pattern.now }
    requires most_beads_in_bounds { most_beads ≤ length hopes.old }
    ensures { Hopes pattern.now hopes.new }
{
    for place in 0..usize::from(pattern[1]) {
        hopes[place] = hopeful(Bead::new(pattern, place));
    }
}
