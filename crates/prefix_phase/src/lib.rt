// The first phase, beads upwards: at which steps each prefix of the pattern holds.
// Rooms are slices of at least so many numbers, as each contract says: an array, or a struct with the bound, would take fewer or be made anew at
// each call.
#![tactic(auto)]

ghost use Rattle.std.specs.Prelude.{◌≡◌, ◌+◌, ◌<◌, ◌≤◌, length};
ghost use Rattle.layout.specs.Layout.{most_steps, work_length};
ghost use Rattle.log_buffer.specs.Meaning.{steps_in};
ghost use Rattle.pattern_buffer.specs.Meaning.{beads_in};
ghost use Rattle.prefix_phase.specs.Marked.{Tested, Unmarked};

use serving::Course;

// What is judged: a pattern and a log that passed their tests, with what the passes over them go by.
#[derive(Clone, Copy)]
pub struct Case<'a> {
    pub course: Course<'a>,
    ghost tested: { Tested course.pattern.now course.log.numbers.now course.log.labels.now },
}

impl<'a> Case<'a> {
    ghost use Rattle.serving.specs.Going.{AskedOf};
    ghost use Rattle.prefix_phase.specs.Cases.{MadeBy, MarkedBy, PrefixesMarkedBy};

    // How many beads the pattern has.
    pub fn beads(&self) -> usize
        ensures { result ≡ beads_in self.now.course.pattern.now }
    {
        usize::from(self.course.pattern[1])
    }

    // How many steps the log has.
    pub fn steps(&self) -> usize
        ensures { result ≡ steps_in self.now.course.log.numbers.now }
    {
        self.course.log.steps()
    }

    // Adds the bead to the prefixes of the steps before which one of the next candidates serves. No pass is made where every later step has the
    // bead already: then no candidate is left to look at.
    #[tactic(auto, using(crate::proofs::MarkLaws::made_kit))]
    fn mark_from(&self, place: usize, from: usize, prefixes: &mut [u16], work: &mut [u16]) -> usize
        requires asked { AskedOf self.now.course place from prefixes.old }
        requires in_bounds { (most_steps ≤ length prefixes.old) × (work_length ≤ length work.old) }
        ensures { MadeBy self.now place from result prefixes.old prefixes.new }
    {
        let n = self.steps();
        if marking::all_marked(place, from, n, prefixes) {
            return n;
        }
        let mut seeds = [0u16; layout::MOST_STEPS];
        let mut found = [0u16; layout::MOST_STEPS];
        let lanes = serving::lanes_by_rule(self.course.pattern, place);
        let to = self
            .course
            .pass_from(place, from, lanes, prefixes, &mut seeds, &mut found, work);
        marking::mark_found(place, from, n, &found, prefixes);
        to
    }

    // Adds the bead to the prefixes of all steps before which a candidate serves. How many candidates are looked at together a pass decides, so
    // that they are no range.
    #[tactic(auto, using(crate::proofs::MarkLaws::bead_kit))]
    fn mark_bead(&self, place: usize, prefixes: &mut [u16], work: &mut [u16])
        requires place_in { place < beads_in self.now.course.pattern.now }
        requires marked { MarkedBy self.now place 0 prefixes.old }
        requires in_bounds { (most_steps ≤ length prefixes.old) × (work_length ≤ length work.old) }
        ensures { MarkedBy self.now (place + 1) 0 prefixes.new }
    {
        let n = self.steps();
        let mut from = 0;
        while from < n {
            from = self.mark_from(place, from, prefixes, work);
        }
    }

    // Marks the prefixes that hold at each step.
    #[tactic(auto, using(crate::proofs::MarkLaws::all_kit))]
    pub fn mark_prefixes(&self, prefixes: &mut [u16], work: &mut [u16])
        requires unmarked { Unmarked prefixes.old }
        requires in_bounds { (most_steps ≤ length prefixes.old) × (work_length ≤ length work.old) }
        ensures { PrefixesMarkedBy self.now prefixes.new }
    {
        for place in 0..self.beads() {
            self.mark_bead(place, prefixes, work);
        }
    }
}
