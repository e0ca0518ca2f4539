// The states that the readings of the routes from a step reach.
use crate::STEPS;
use random_inputs::{LogRoom, PatternRoom, has};
use trial::{get, put};

// 1 at each step to which a route leads from u, as one does to u itself, by no link; else 0.
pub fn routes_from(log: &LogRoom, u: u16) -> [u16; STEPS] {
    spread(log, u, |_, brought| brought)
}

// The states of a bead at each step. At u they are 0 alone: the route with no link reads nothing.
pub fn states_from(pattern: &PatternRoom, bead: u16, log: &LogRoom, u: u16) -> [u16; STEPS] {
    spread(log, u, |w, brought| {
        entered(pattern, bead, log.labels(w), brought)
    })
}

// A set for each step: that of u is 0 alone, and that of a later step is made of what its links bring. Before u all are empty.
fn spread<F: Fn(u16, u16) -> u16>(log: &LogRoom, u: u16, enter: F) -> [u16; STEPS]
    requires { F.IsAlwaysCallable enter }
{
    let mut sets = [0; STEPS];
    put(&mut sets, usize::from(u), 1);
    for w in (u..log.step_count()).skip(1) {
        let links = log.links(w).iter();
        let brought = links.fold(0, |all, p| all | get(&sets, usize::from(*p)));
        put(&mut sets, usize::from(w), enter(w, brought));
    }
    sets
}

// The states after a step with these labels is entered. The empty letter changes none.
fn entered(pattern: &PatternRoom, bead: u16, labels: u16, states: u16) -> u16 {
    if labels == 0 {
        return states;
    }
    (0..pattern.label_count()).fold(0, |all, label| {
        if has(labels, label) {
            all | read(pattern, bead, label, states)
        } else {
            all
        }
    })
}

// The states after a label is read.
fn read(pattern: &PatternRoom, bead: u16, label: u16, states: u16) -> u16 {
    (0..pattern.state_count(bead)).fold(0, |all, state| {
        if has(states, state) {
            all | pattern.next(bead, state, label)
        } else {
            all
        }
    })
}
