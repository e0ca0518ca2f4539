// The work buffer of sixteen forward passes, a lane each: for each step and state the set of the lanes that are in the state there.
// Rooms are slices of at least so many numbers, as each contract says: an array, or a struct with the bound, would take fewer or be made anew at
// each call.
#![tactic(auto)]

ghost use Rattle.std.specs.Prelude.{◌<◌, ◌≤◌, length};
ghost use Rattle.layout.specs.Layout.{most_steps, work_length, most_states};
ghost use Rattle.log_buffer.specs.Meaning.{steps_in, links_into};
ghost use Rattle.log_links.specs.Links.{Inside};
ghost use Rattle.entering.specs.Entering.{Grown};
ghost use Rattle.lanes.specs.Lanes.{lanes_at, Gathered, PutTo, BegunAt};

use log_links::Log;

// Adds the lanes of the step w, state by state. By index, as `entering::state_values`.
#[tactic(auto, using(crate::proofs::GatherLaws::step_kit))]
fn add_step(work: &[u16], w: usize, here: &mut [u16; layout::MOST_STATES])
    requires { (w < most_steps) × (work_length ≤ length work.now) }
    ensures { Grown most_states (lanes_at work.now w) here.old here.new }
{
    for q in 0..layout::MOST_STATES {
        here[q] = sets::union(here[q], work[layout::MOST_STATES * w + q]);
    }
}

// The lanes of the listed steps, state by state. A step that lies before the first one of the pass has none.
fn gather(links: &[u16], first: usize, work: &[u16]) -> [u16; layout::MOST_STATES]
    requires inside { Inside most_steps links.now }
    requires work_length_in_bounds { work_length ≤ length work.now }
    ensures { Gathered work.now first links.now result }
{
    let mut here = [0u16; layout::MOST_STATES];
    for link in links {
        let w = usize::from(*link);
        if first <= w {
            add_step(work, w, &mut here);
        }
    }
    here
}

// The lanes of the predecessors of the step x.
pub fn before(log: Log, x: usize, first: usize, work: &[u16]) -> [u16; layout::MOST_STATES]
    requires { (x < steps_in log.numbers.now) × (work_length ≤ length work.now) }
    ensures { Gathered work.now first (links_into log.entry.numbers.now x) result }
{
    gather(log.into_step(x), first, work)
}

// Puts the lanes down at the step x.
#[tactic(auto, using(crate::proofs::PutLaws::put_all))]
pub fn put(here: &[u16], x: usize, work: &mut [u16])
    requires { (x < most_steps) × (most_states ≤ length here.now) × (work_length ≤ length work.old) }
    ensures { PutTo most_states x here.now work.old work.new }
{
    let from = layout::MOST_STATES * x;
    work[from..from + layout::MOST_STATES].copy_from_slice(&here[..layout::MOST_STATES]);
}

// Adds the lanes that begin at the step x, if some do.
#[tactic(auto, using(crate::proofs::PutLaws::begin_kit))]
pub fn begin_at(begin: u16, x: usize, work: &mut [u16])
    requires { (x < most_steps) × (work_length ≤ length work.old) }
    ensures { BegunAt x begin work.old work.new }
{
    if begin != 0 {
        let place = layout::MOST_STATES * x;
        work[place] = sets::union(work[place], begin);
    }
}
