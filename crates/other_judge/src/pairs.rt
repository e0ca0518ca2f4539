// The beads that hold on each pair of steps.
use crate::STEPS;
use crate::states::{routes_from, states_from};
use random_inputs::{LogRoom, PatternRoom, Rule, only};

// The beads on u and v, at [u][v].
pub type Pairs = [[u16; STEPS]; STEPS];

// In a table of zeros that is lent: answered by value, it would be copied.
pub fn settle_pairs(pattern: &PatternRoom, log: &LogRoom, pairs: &mut Pairs) {
    for (u, beads) in (0..log.step_count()).zip(pairs.iter_mut()) {
        settle_from(pattern, log, u, beads);
    }
}

// The beads on u and each step: no step after the last has any.
fn settle_from(pattern: &PatternRoom, log: &LogRoom, u: u16, beads: &mut [u16; STEPS]) {
    let steps = usize::from(log.step_count());
    let routes = routes_from(log, u);
    for bead in 0..pattern.bead_count() {
        let states = states_from(pattern, bead, log, u);
        let reached = routes.iter().zip(&states);
        for (held, (route, states)) in beads.iter_mut().zip(reached).take(steps) {
            if *route == 1 && holds(pattern, bead, *states) {
                *held |= only(bead);
            }
        }
    }
}

// SOME: a final state is among those reached. ALL: no other state is.
fn holds(pattern: &PatternRoom, bead: u16, states: u16) -> bool {
    let good = states & pattern.finals(bead);
    match pattern.rule(bead) {
        Rule::ForSome => good != 0,
        Rule::ForAll => good == states,
    }
}
