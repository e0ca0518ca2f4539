// The room of a pattern. Beads, states and labels are counted from 0 here.
use trial::{get, put};

// On some route to a step, or on all.
#[derive(Clone, Copy, PartialEq, Eq)]
pub enum Rule {
    ForSome = 1,
    ForAll = 2,
}

#[derive(Clone, Copy)]
pub struct PatternRoom {
    pub numbers: [u16; PatternRoom::LENGTH],
}

impl PatternRoom {
    // Where the rules, the state counts, the final sets and the next sets stand, and how many numbers there are: said here once more, as
    // those of a log.
    pub const RULES: usize = 2;

    pub const STATE_COUNTS: usize = 10;

    pub const FINALS: usize = 18;

    pub const NEXTS: usize = 26;

    pub const LENGTH: usize = 2074;

    // A pattern of no labels and no beads.
    pub fn new() -> PatternRoom {
        PatternRoom {
            numbers: [0; PatternRoom::LENGTH],
        }
    }

    pub fn clear(&mut self) {
        self.numbers.fill(0);
    }

    pub fn label_count(&self) -> u16 {
        self.numbers[0]
    }

    pub fn bead_count(&self) -> u16 {
        self.numbers[1]
    }

    pub fn rule(&self, bead: u16) -> Rule {
        match get(&self.numbers, PatternRoom::RULES + usize::from(bead)) {
            1 => Rule::ForSome,
            _ => Rule::ForAll,
        }
    }

    pub fn state_count(&self, bead: u16) -> u16 {
        get(&self.numbers, PatternRoom::STATE_COUNTS + usize::from(bead))
    }

    pub fn finals(&self, bead: u16) -> u16 {
        get(&self.numbers, PatternRoom::FINALS + usize::from(bead))
    }

    // The states after a label that is read in this state.
    pub fn next(&self, bead: u16, state: u16, label: u16) -> u16 {
        get(&self.numbers, PatternRoom::next_place(bead, state, label))
    }

    pub fn next_place(bead: u16, state: u16, label: u16) -> usize {
        PatternRoom::NEXTS + usize::from(bead) * 256 + usize::from(state) * 16 + usize::from(label)
    }

    pub fn set_counts(&mut self, labels: u16, beads: u16) {
        self.numbers[0] = labels;
        self.numbers[1] = beads;
    }

    pub fn set_bead(&mut self, bead: u16, rule: Rule, states: u16, finals: u16) {
        put(
            &mut self.numbers,
            PatternRoom::RULES + usize::from(bead),
            rule as u16,
        );
        put(
            &mut self.numbers,
            PatternRoom::STATE_COUNTS + usize::from(bead),
            states,
        );
        put(
            &mut self.numbers,
            PatternRoom::FINALS + usize::from(bead),
            finals,
        );
    }

    pub fn set_next(&mut self, bead: u16, state: u16, label: u16, to: u16) {
        put(
            &mut self.numbers,
            PatternRoom::next_place(bead, state, label),
            to,
        );
    }
}
