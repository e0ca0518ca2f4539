// Which candidates serve as the pivot before which steps: SOME and ALL are decided bead by bead, by a pass from the candidates.
// Rooms are slices of at least so many numbers, as each contract says: an array, or a struct with the bound, would take fewer or be made anew at
// each call.
#![tactic(auto)]

ghost use Rattle.std.specs.Prelude.{◌≡◌, ◌<◌, ◌≤◌, length};
ghost use Rattle.layout.specs.Layout.{most_beads, most_steps, work_length, rule_at};
ghost use Rattle.log_buffer.specs.Meaning.{steps_in};
ghost use Rattle.log_links.specs.Links.{LastTo};
ghost use Rattle.entering.specs.Entering.{BeadIn};
ghost use Rattle.hope.specs.Hope.{Hopes};
ghost use Rattle.serving.specs.Serving.{LanesFor};

use entering::Bead;
use log_links::Log;
use pass_steps::Pass;
use starts::Lanes;

// The lanes that a bead's starting steps are given. ALL asks each step by itself, so each has a lane of its own; SOME asks for some starting
// step and not for which, so all share one.
#[tactic(auto, using(crate::proofs::ServingLaws::lanes_kit))]
pub fn lanes_by_rule(pattern: &[u16], place: usize) -> Lanes
    requires { (place < most_beads) × (rule_at most_beads ≤ length pattern.now) }
    ensures { LanesFor pattern.now place result }
{
    if pattern[layout::RULES + place] == layout::ALL {
        Lanes::Own
    } else {
        Lanes::Shared
    }
}

// What the passes over a log go by: the pattern and the log, the hopeful states of each bead, and for each step the last one that it has a
// link to.
#[derive(Clone, Copy)]
pub struct Course<'a> {
    pub pattern: &'a [u16],
    pub log: Log<'a>,
    pub hopes: &'a [u16],
    pub last: &'a [u16],
    ghost hopeful: { Hopes pattern.now hopes.now },
    ghost far: { LastTo log.numbers.now (steps_in log.numbers.now) last.now },
    ghost long: { (most_beads ≤ length hopes.now) × (most_steps ≤ length last.now) },
}

impl<'a> Course<'a> {
    ghost use Rattle.serving.specs.Going.{AskedOf, FoundFrom, ServedFrom};

    // The bead at a place of the pattern.
    pub fn bead(&self, place: usize) -> Bead<'a>
        requires { BeadIn self.now.pattern.now place }
        ensures { (result.pattern.now ≡ self.now.pattern.now) × (result.place ≡ place) }
    {
        Bead::new(self.pattern, place)
    }

    // The next candidates from `from` on, and one pass from them: sixteen, if each has a lane of its own; else all that are left. Answers the
    // step after the last one looked at.
    // Its rooms are lent one by one: what it finds stands in three of them.
    pub fn pass_from(
        &self,
        place: usize,
        from: usize,
        lanes: Lanes,
        prefixes: &[u16],
        seeds: &mut [u16],
        found: &mut [u16],
        work: &mut [u16],
    ) -> usize
        requires asked { AskedOf self.now place from prefixes.now }
        requires lanes_for { LanesFor self.now.pattern.now place lanes }
        requires in_bounds { (most_steps ≤ length prefixes.now) × (most_steps ≤ length seeds.old) × (most_steps ≤ length found.old) × (work_length ≤ length work.old) }
        ensures found_from { FoundFrom self.now place from result found.new }
        ensures served_from { ServedFrom lanes self.now place from result seeds.new found.new }
    {
        let starts = starts::choose(prefixes, place, from, self.log.steps(), lanes, seeds);
        let pass = Pass {
            bead: self.bead(place),
            hopeful: self.hopes[place],
            log: self.log.numbers,
            labels: self.log.labels,
            last: self.last,
            seeds,
            first: starts.first,
            until: starts.until,
        };
        passes::pass(&pass, work, found);
        starts.to
    }
}
