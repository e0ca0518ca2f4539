// A turn of the walk back: of one bead, of some candidates for its pivots, and of the next step that has one of them to look for.
// Rooms are slices of at least so many numbers, as each contract says: an array, or a struct with the bound, would take fewer or be made anew at
// each call.
#![tactic(auto)]

ghost use Rattle.std.specs.Prelude.{◌-◌, ◌+◌, ◌<◌, ◌≤◌, ◌≡◌, ℕ, length};
ghost use Rattle.layout.specs.Layout.{most_steps, work_length, most_beads, pivot_places};
ghost use Rattle.prefix_phase.specs.Cases.{PrefixesMarkedBy};
ghost use Rattle.walk_turn.specs.Turns.{TurnIn, AimOf, PutDown, Next};

use prefix_phase::Case;
use starts::Lanes;
use walk_places::Places;

// A turn: how many beads are left, the last of which it is of; where its candidates begin, and where they end, once they are found at its first
// step; and the first step not looked at.
#[derive(Clone, Copy)]
pub struct Turn {
    pub left: usize,
    pub from: usize,
    pub to: Option<usize>,
    pub step: usize,
}

// What is aimed at in a turn: the next step that has something to look for, and the pivot picked last for it.
#[derive(Clone, Copy)]
pub struct Aim {
    pub step: usize,
    pub pivot: usize,
}

// A turn that has begun: where its candidates end, and what is aimed at, if some step has something to look for.
#[derive(Clone, Copy)]
pub struct Opened {
    pub to: usize,
    pub aim: Option<Aim>,
}

// What all turns go by: the case, and for each step the set of the prefixes that hold there.
#[derive(Clone, Copy)]
pub struct Walk<'a> {
    pub case: Case<'a>,
    pub prefixes: &'a [u16],
    ghost marks: { PrefixesMarkedBy case prefixes.now },
    ghost long: { most_steps ≤ length prefixes.now },
}

impl<'a> Walk<'a> {
    ghost use Rattle.walk_turn.specs.Walks.{DueIn, ReadyIn, BegunIn};

    // Where the candidates of the turn end. They are found at its first step, the next sixteen, by a pass from them; at the others they are
    // known. When no step searches any more the bead is done, and they are all that are left.
    fn open_turn(
        &self,
        n: usize,
        turn: Turn,
        pivots: &[u16],
        seeds: &mut [u16],
        found: &mut [u16],
        work: &mut [u16],
    ) -> usize
        requires due { DueIn self.now n turn seeds.old found.old pivots.now }
        requires in_bounds { (pivot_places ≤ length pivots.now) × (most_steps ≤ length seeds.old) × (most_steps ≤ length found.old) × (work_length ≤ length work.old) }
        ensures { ReadyIn self.now n turn result seeds.new found.new pivots.now }
    {
        if let Some(to) = turn.to {
            return to;
        }
        let k = turn.left - 1;
        if walk_places::none_search(k, turn.from, n, pivots) {
            return n;
        }
        self.case.course.pass_from(k, turn.from, Lanes::Own, self.prefixes, seeds, found, work)
    }

    // Finds the candidates of the turn, and aims.
    pub fn begin_turn(
        &self,
        n: usize,
        turn: Turn,
        pivots: &[u16],
        seeds: &mut [u16],
        found: &mut [u16],
        work: &mut [u16],
    ) -> Opened
        requires due { DueIn self.now n turn seeds.old found.old pivots.now }
        requires in_bounds { (pivot_places ≤ length pivots.now) × (most_steps ≤ length seeds.old) × (most_steps ≤ length found.old) × (work_length ≤ length work.old) }
        ensures { BegunIn self.now n turn result seeds.new found.new pivots.now }
    {
        let places = Places {
            left: turn.left,
            n,
            pivots,
        };
        let to = self.open_turn(n, turn, pivots, seeds, found, work);
        let aim = take_aim(turn, &places, found);
        Opened { to, aim }
    }
}

// Aims at the next step that has something to look for.
#[tactic(auto, using(crate::proofs::TurnLaws::aim_kit))]
fn take_aim(turn: Turn, places: &Places, found: &[u16]) -> Option<Aim>
    requires { (places.now.left ≡ turn.left) × (1 ≤ turn.left) × (turn.step ≤ places.now.n) × (most_steps ≤ length found.now) }
    ensures { AimOf places.now.n turn found.now places.now.pivots.now result }
{
    let step = places.next_step(found, turn.step)?;
    let pivot = places.last_pivot(step);
    Some(Aim { step, pivot })
}

// Puts the candidate that was picked down as the pivot of the step, if one was.
#[tactic(auto, using(crate::proofs::TurnLaws::put_kit))]
pub fn put_down(turn: Turn, step: usize, picked: Option<usize>, pivots: &mut [u16])
    requires turn_in { (1 ≤ turn.left) × (turn.left ≤ most_beads) × (step ≤ most_steps) × (pivot_places ≤ length pivots.old) }
    requires picked_bound { (u : ℕ) → picked ≡ Some u → u ≤ most_steps }
    ensures { PutDown turn step picked pivots.old pivots.new }
{
    if let Some(u) = picked {
        pivots[layout::MOST_STEPS * (turn.left - 1) + step] = u as u16;
    }
}

// The turn after another, when the steps below `after` have been through it: from there on; after the last step with the next candidates; after
// all of them for the bead before.
#[tactic(auto, using(crate::proofs::TurnLaws::next_kit))]
pub fn next_turn(n: usize, turn: Turn, to: usize, after: usize) -> Turn
    requires { (turn.from < to) × (turn.step < after) × TurnIn n turn to }
    ensures { Next n turn to after result }
{
    if after < n {
        return Turn {
            to: Some(to),
            step: after,
            ..turn
        };
    }
    if to < n {
        return Turn {
            from: to,
            to: None,
            step: to,
            ..turn
        };
    }
    Turn {
        left: turn.left - 1,
        from: 0,
        to: None,
        step: 0,
    }
}
