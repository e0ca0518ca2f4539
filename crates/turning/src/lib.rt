// The turn of a step in sixteen forward passes at once.
#![tactic(auto)]

ghost use Rattle.std.specs.Prelude.{◌<◌, ◌≤◌, length};
ghost use Rattle.sets.specs.Sets.{members};
ghost use Rattle.layout.specs.Layout.{work_length, most_labels, most_states};
ghost use Rattle.pattern_buffer.specs.Meaning.{automaton_of};
ghost use Rattle.log_buffer.specs.Meaning.{steps_in, log_of};
ghost use Rattle.turning.specs.Turning.{EnteredTo, Arrived, Turned};

use entering::Bead;
use log_links::Log;

// The lanes that entering a step with these labels brings on. For a state that no lane is in, nothing is looked up.
fn enter_all(
    bead: Bead,
    labels: u16,
    here: &[u16; layout::MOST_STATES],
) -> [u16; layout::MOST_STATES]
    ensures { EnteredTo (automaton_of bead.entry.pattern.now bead.entry.place) (members most_labels labels) most_states here.now result }
{
    let mut next = [0u16; layout::MOST_STATES];
    for (state, &lanes) in here.iter().enumerate() {
        if lanes != 0 {
            entering::spread(bead.enter(labels, state as u16), lanes, &mut next);
        }
    }
    next
}

// The lanes that arrive at the step x. A step without labels leaves every lane in its state.
#[tactic(auto, using(crate::proofs::TurnLaws::arriving_kit))]
fn arriving(
    bead: Bead,
    log: Log,
    first: usize,
    x: usize,
    work: &[u16],
) -> [u16; layout::MOST_STATES]
    requires { (x < steps_in log.numbers.now) × (work_length ≤ length work.now) }
    ensures { Arrived (log_of log.entry.numbers.now log.entry.labels.now) (automaton_of bead.entry.pattern.now bead.entry.place) work.now first x result }
{
    let here = lanes::before(log, x, first, work);
    if log.is_bare(x) {
        return here;
    }
    enter_all(bead, log.labels(x), &here)
}

// The turn of the step x in the passes: the lanes that arrive, and those that begin there. It asks less than a `Pass`, which has more than it needs.
#[tactic(auto, using(crate::proofs::TurnLaws::turned))]
pub fn turn(bead: Bead, log: Log, first: usize, x: usize, begin: u16, work: &mut [u16])
    requires { (x < steps_in log.numbers.now) × (work_length ≤ length work.old) }
    ensures { Turned (log_of log.entry.numbers.now log.entry.labels.now) (automaton_of bead.entry.pattern.now bead.entry.place) first begin x work.old work.new }
{
    let here = arriving(bead, log, first, x, work);
    lanes::put(&here, x, work);
    lanes::begin_at(begin, x, work);
}
