// The lanes that are, at a step, in states of a set.
#![tactic(auto)]

ghost use Rattle.std.specs.Prelude.{◌≡◌, ◌<◌, ◌≤◌, length};
ghost use Rattle.lists.specs.Places.{at};
ghost use Rattle.sets.specs.Sets.{set_of, complement};
ghost use Rattle.layout.specs.Layout.{most_steps, states_at, work_length, most_lanes};
ghost use Rattle.entering.specs.Entering.{BeadIn};
ghost use Rattle.lane_sets.specs.LaneSets.{lane_with, lane_holds};

use entering::Bead;

// The states of a bead outside the set.
fn other_states(bead: Bead, set: u16) -> u16
    requires { BeadIn bead.pattern.now bead.place }
    ensures { result ≡ complement (at bead.entry.pattern.now (states_at bead.entry.place)) set }
{
    sets::complement(set, bead.states())
}

// The lanes that are in some state of the set at the step x.
#[tactic(auto, using(crate::proofs::LaneLaws::with_is))]
fn lanes_with(work: &[u16], x: usize, states: u16) -> u16
    requires { (x < most_steps) × (work_length ≤ length work.now) }
    ensures { result ≡ set_of most_lanes (lane_with work.now x states) }
{
    entering::union_over(states, work, layout::MOST_STATES * x)
}

// The lanes that are in some state of the set at the step x: an ALL bead takes away those that are in another state too. With the accepting
// states these are the lanes that reach x, with the hopeful ones those that are alive there.
#[tactic(auto, using(crate::proofs::LaneLaws::reaching_kit))]
pub fn reaching(bead: Bead, set: u16, work: &[u16], x: usize) -> u16
    requires bead_in { BeadIn bead.pattern.now bead.place }
    requires x_bound { (x < most_steps) × (work_length ≤ length work.now) }
    ensures { result ≡ set_of most_lanes (lane_holds bead.entry.pattern.now bead.entry.place set work.now x) }
{
    let inside = lanes_with(work, x, set);
    if bead.is_all() {
        let others = lanes_with(work, x, other_states(bead, set));
        return sets::intersection(inside, sets::complement(others, layout::MOST_LANES));
    }
    inside
}
