// The second phase: the walk back over the beads, for every step at which the whole pattern holds.
// Rooms are slices of at least so many numbers, as each contract says: an array, or a struct with the bound, would take fewer or be made anew at
// each call.
#![tactic(auto)]

ghost use Rattle.std.specs.Prelude.{◌<◌, ◌≤◌, length};
ghost use Rattle.layout.specs.Layout.{most_steps, work_length, pivot_places};
ghost use Rattle.log_buffer.specs.Meaning.{log_of, steps_in};
ghost use Rattle.pattern_buffer.specs.Meaning.{beads_in, pattern_of};
ghost use Rattle.prefix_phase.specs.Cases.{PrefixesMarkedBy};
ghost use Rattle.walk_places.specs.Walked.{WalkedBack, Walked};
ghost use Rattle.walk_turn.specs.Turns.{TurnIn, AimOf, Picked, Settled};

use prefix_phase::Case;
use walk_turn::{Opened, Turn, Walk};

// The smallest candidate, from `from` on and below `to`, that serves as the pivot before p: some lane begins there and reaches p. The search stops
// at the first one that does.
#[tactic(auto, using(walk_turn::proofs::TurnLaws::seek_kit))]
fn pick(from: usize, to: usize, p: usize, seeds: &[u16], found: &[u16]) -> Option<usize>
    requires { (from < to) × (to ≤ most_steps) × (p < most_steps) × (most_steps ≤ length seeds.now) × (most_steps ≤ length found.now) }
    ensures { Picked seeds.now found.now p from to result }
{
    let mut picked = None;
    for u in from..to {
        let serves = sets::overlaps(seeds[u], found[p]);
        if serves {
            picked = Some(u);
            break;
        }
    }
    picked
}

// The rest of a turn: of the candidates the smallest that serves is picked for the step aimed at and put down, and the next turn goes on after
// that step. Where none is aimed at no step is left to look at. Its rooms are lent one by one, since it
// changes one of them alone.
fn settle(
    n: usize,
    turn: Turn,
    opened: Opened,
    seeds: &[u16],
    found: &[u16],
    pivots: &mut [u16],
) -> Turn
    requires turn_in { (turn.from < opened.to) × TurnIn n turn opened.to }
    requires aimed { AimOf n turn found.now pivots.old opened.aim }
    requires in_bounds { (most_steps ≤ length seeds.now) × (most_steps ≤ length found.now) × (pivot_places ≤ length pivots.old) }
    ensures { Settled n turn opened seeds.now found.now pivots.old pivots.new result }
{
    match opened.aim {
        Some(aim) => {
            let picked = pick(turn.from, opened.to, aim.pivot, seeds, found);
            walk_turn::put_down(turn, aim.step, picked, pivots);
            walk_turn::next_turn(n, turn, opened.to, aim.step + 1)
        }
        None => walk_turn::next_turn(n, turn, opened.to, n),
    }
}

// The walk back, in turns: beads downwards (`turn.left` are left), inside them the candidates by sixteens (from `turn.from` on) and the steps
// (from `turn.step` on, the next that has something to look for). It counts no index: what a turn is of, the one before decides.
fn walk_turns(
    walk: &Walk,
    pivots: &mut [u16],
    seeds: &mut [u16],
    found: &mut [u16],
    work: &mut [u16],
)
    requires in_bounds { (pivot_places ≤ length pivots.old) × (most_steps ≤ length seeds.old) × (most_steps ≤ length found.old) × (work_length ≤ length work.old) }
    requires walked { Walked (log_of walk.now.case.course.log.numbers.now walk.now.case.course.log.labels.now) (pattern_of walk.now.case.course.pattern.now) (steps_in walk.now.case.course.log.numbers.now) (beads_in walk.now.case.course.pattern.now) 0 0 0 pivots.old }
    ensures { WalkedBack (log_of walk.now.case.course.log.numbers.now walk.now.case.course.log.labels.now) (pattern_of walk.now.case.course.pattern.now) (steps_in walk.now.case.course.log.numbers.now) pivots.new }
{
    let n = walk.case.steps();
    let mut turn = Turn {
        left: walk.case.beads(),
        from: 0,
        to: None,
        step: 0,
    };
    while 0 < turn.left {
        let opened = walk.begin_turn(n, turn, pivots, seeds, found, work);
        turn = settle(n, turn, opened, seeds, found, pivots);
    }
}

// Puts down the pivots of every step at which the whole pattern holds.
pub fn walk_back(case: &Case, prefixes: &[u16], pivots: &mut [u16], work: &mut [u16])
    requires marks { PrefixesMarkedBy case.now prefixes.now }
    requires in_bounds { (most_steps ≤ length prefixes.now) × (pivot_places ≤ length pivots.old) × (work_length ≤ length work.old) }
    ensures { WalkedBack (log_of case.now.course.log.numbers.now case.now.course.log.labels.now) (pattern_of case.now.course.pattern.now) (steps_in case.now.course.log.numbers.now) pivots.new }
{
    let mut seeds = [0u16; layout::MOST_STEPS];
    let mut found = [0u16; layout::MOST_STEPS];
    let course = case.course;
    walk_places::start_walk(
        course.pattern,
        course.log.numbers,
        course.log.labels,
        case.beads(),
        case.steps(),
        prefixes,
        pivots,
    );
    let walk = Walk {
        case: *case,
        prefixes,
    };
    walk_turns(&walk, pivots, &mut seeds, &mut found, work);
}
