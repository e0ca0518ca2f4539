// A step of sixteen forward passes: its turn, the lanes that reach it, and how far the passes have to go.
// Rooms are slices of at least so many numbers, as each contract says: an array, or a struct with the bound, would take fewer or be made anew at
// each call.
#![tactic(auto)]

ghost use Rattle.std.specs.Prelude.{◌≡◌, ◌+◌, ◌<◌, ◌≤◌, length};
ghost use Rattle.layout.specs.Layout.{most_steps, work_length};
ghost use Rattle.necklace.specs.Dag.{WellFormed};
ghost use Rattle.pattern_buffer.specs.Meaning.{labels_in};
ghost use Rattle.log_buffer.specs.Meaning.{steps_in, log_of};
ghost use Rattle.log_links.specs.Links.{Laid};
ghost use Rattle.entering.specs.Entering.{BeadIn};
ghost use Rattle.pass_steps.specs.PassSteps.{beginning_at};

use entering::Bead;
use log_links::Log;

// What a pass is made of: a bead and its hopeful states, a log and for each step its label set and the last one that it has a link to, and for each
// step the lanes that begin there, of the steps from `first` on and below `until`. What is asked of the hopeful states and of the last links stands
// at the methods that look at them, and so does what is asked of the log, of its label sets and of the starting steps.
#[derive(Clone, Copy)]
pub struct Pass<'a> {
    pub bead: Bead<'a>,
    pub hopeful: u16,
    pub log: &'a [u16],
    pub labels: &'a [u16],
    pub last: &'a [u16],
    pub seeds: &'a [u16],
    pub first: usize,
    pub until: usize,
    ghost bead_in: { BeadIn bead.pattern.now bead.place },
}

impl<'a> Pass<'a> {
    ghost use Rattle.pass_steps.specs.Made.{LastBy, HeldBy, FoundBy, BoundedBy};

    // The lanes that begin at the step x.
    #[tactic(auto, using(crate::proofs::BeginLaws::begin_kit))]
    fn beginning(&self, x: usize) -> u16
        requires { (self.now.until ≤ most_steps) × (most_steps ≤ length self.now.seeds.now) }
        ensures { result ≡ beginning_at self.now.seeds.now self.now.until x }
    {
        if x < self.until { self.seeds[x] } else { 0 }
    }

    // The turn of the step x: the lanes that arrive there, and those that begin there.
    #[tactic(auto, using(crate::proofs::AdvanceLaws::held_more))]
    pub fn advance(&self, x: usize, work: &mut [u16])
        requires laid { Laid self.now.log.now }
        requires well_formed { WellFormed (labels_in self.now.bead.pattern.now) (log_of self.now.log.now self.now.labels.now) }
        requires x_bound { (x < steps_in self.now.log.now) × (self.now.until ≤ most_steps) × (most_steps ≤ length self.now.seeds.now) × (work_length ≤ length work.old) }
        requires labels_long { most_steps ≤ length self.now.labels.now }
        requires held { HeldBy self.now x work.old }
        ensures { HeldBy self.now (x + 1) work.new }
    {
        let begin = self.beginning(x);
        turning::turn(
            self.bead,
            Log::new(self.log, self.labels),
            self.first,
            x,
            begin,
            work,
        );
    }

    // The lanes that reach the step x.
    #[tactic(auto, using(crate::proofs::FindLaws::found_more))]
    pub fn find(&self, x: usize, work: &[u16], found: &mut [u16])
        requires first_le_x { (self.now.first ≤ x) × (x < most_steps) × (work_length ≤ length work.now) × (most_steps ≤ length found.old) }
        requires held { HeldBy self.now (x + 1) work.now }
        requires found_by { FoundBy self.now x found.old }
        ensures { FoundBy self.now (x + 1) found.new }
    {
        found[x] = lane_sets::reaching(self.bead, self.bead.accepting(), work, x);
    }

    // How far the pass has to go after the step x: to the last step that it has a link to, if a lane is alive there. An ALL bead gives a lane
    // up as soon as it is in a state beyond hope: that leads to such states alone. A step with no link past `reach` changes nothing: its lanes
    // are not looked at.
    #[tactic(auto, using(crate::proofs::FindLaws::reach_kit))]
    pub fn reach_after(&self, x: usize, reach: usize, work: &[u16]) -> usize
        requires last_to { LastBy self.now }
        requires first_le_x { (self.now.first ≤ x) × (x < most_steps) × (most_steps ≤ length self.now.last.now) × (work_length ≤ length work.now) }
        requires held { HeldBy self.now (x + 1) work.now }
        requires bounded { BoundedBy self.now x reach }
        ensures { BoundedBy self.now (x + 1) result }
    {
        let far = usize::from(self.last[x]);
        if far <= reach {
            return reach;
        }
        let alive = lane_sets::reaching(self.bead, self.hopeful, work, x);
        if alive == 0 { reach } else { far }
    }
}
