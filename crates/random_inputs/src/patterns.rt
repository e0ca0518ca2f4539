// Patterns of all shapes.
use crate::below::{all_below, any_below, one_below};
use crate::pattern_room::{PatternRoom, Rule};
use trial::Random;

// How the next sets of a bead are drawn.
#[derive(Clone, Copy)]
enum NextSets {
    // At most one state.
    Sparse,
    One,
    Quarter,
    Half,
}

impl NextSets {
    const WAYS: [NextSets; 4] = [
        NextSets::Sparse,
        NextSets::One,
        NextSets::Quarter,
        NextSets::Half,
    ];

    fn draw(self, states: u16, random: &mut Random) -> u16 {
        let x = random.draw(65536) as u16;
        match self {
            NextSets::Sparse if x % 3 == 0 => 0,
            NextSets::Sparse | NextSets::One => one_below(states, x),
            NextSets::Quarter => any_below(states, x & x >> 3),
            NextSets::Half => any_below(states, x),
        }
    }
}

// Which states of a bead are final.
#[derive(Clone, Copy)]
enum Finals {
    Any,
    One,
    NoState,
    Most,
    AllButOne,
    All,
}

impl Finals {
    const WAYS: [Finals; 8] = [
        Finals::Any,
        Finals::One,
        Finals::NoState,
        Finals::Most,
        Finals::AllButOne,
        Finals::AllButOne,
        Finals::All,
        Finals::All,
    ];

    // With `mild` they are all states or all but one.
    fn draw(mild: bool, states: u16, random: &mut Random) -> u16 {
        let way = random.draw(8) as usize;
        let x = random.draw(65536) as u16;
        match Finals::WAYS[if mild { 4 + way % 4 } else { way }] {
            Finals::Any => any_below(states, x),
            Finals::One => one_below(states, x),
            Finals::NoState => 0,
            Finals::Most => any_below(states, x | x >> 5),
            Finals::AllButOne => any_below(states, !one_below(states, x)),
            Finals::All => all_below(states),
        }
    }
}

// A pattern of this many beads, the rules by turns.
pub fn draw_pattern(beads: u16, random: &mut Random) -> PatternRoom {
    let mut pattern = PatternRoom::new();
    draw_beads(&mut pattern, beads, random);
    pattern
}

// The same in a room lent, whatever it held before.
pub fn redraw_pattern(pattern: &mut PatternRoom, beads: u16, random: &mut Random) {
    pattern.clear();
    draw_beads(pattern, beads, random);
}

fn draw_beads(pattern: &mut PatternRoom, beads: u16, random: &mut Random) {
    let shape = random.draw(4);
    let labels = label_count(shape, random.draw(16) as u16);
    pattern.set_counts(labels, beads);
    let first = random.draw(2);
    // In two patterns of three most states are final: a pattern of many beads seldom holds else.
    let mild = random.draw(3) != 0;
    for bead in 0..beads {
        let rule = if u64::from(bead % 2) == first {
            Rule::ForSome
        } else {
            Rule::ForAll
        };
        draw_bead(pattern, bead, rule, mild, random);
    }
}

// Often few, so that steps share labels. The shape is a number drawn and matched at once: an enum would need a table from number to shape
// beside this one from shape to count.
fn label_count(shape: u64, size: u16) -> u16 {
    match shape {
        0 => 1 + size % 2,
        1 => 2,
        2 => 1 + size % 4,
        _ => 1 + size % 16,
    }
}

fn draw_bead(pattern: &mut PatternRoom, bead: u16, rule: Rule, mild: bool, random: &mut Random) {
    let shape = random.draw(8);
    let states = state_count(shape, random.draw(16) as u16);
    let finals = Finals::draw(mild, states, random);
    pattern.set_bead(bead, rule, states, finals);
    let drawn = NextSets::WAYS[random.draw(4) as usize];
    let sets = match rule {
        Rule::ForSome => drawn,
        Rule::ForAll => NextSets::One,
    };
    // A next set for each state and label.
    for state in 0..states {
        for label in 0..pattern.label_count() {
            pattern.set_next(bead, state, label, sets.draw(states, random));
        }
    }
}

// From a shape drawn, as the label count.
fn state_count(shape: u64, size: u16) -> u16 {
    match shape {
        0 => 1,
        1 => 16,
        2 => 1 + size % 16,
        _ => 2 + size % 3,
    }
}
