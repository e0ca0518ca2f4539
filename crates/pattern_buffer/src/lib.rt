// The numbers of a lent pattern buffer, each read under its name; and the test of its next sets: are they those that an accepted pattern
// text gives?
#![tactic(auto)]

ghost use Rattle.std.specs.Prelude.{◌≡◌, ◌<◌, ◌≤◌, length, MatchOption, ℕ, List};
ghost use Rattle.lists.specs.Places.{at};
ghost use Rattle.layout.specs.Layout.{pattern_length, most_beads, most_states, most_labels, rule_at, states_at, accepting_at, next_at};
ghost use Rattle.sets.specs.Sets.{all_below};
ghost use Rattle.pattern_buffer.specs.Meaning.{labels_in, beads_in};
ghost use Rattle.pattern_buffer.specs.Valid.{next_ok, nexts_ok};

use std::marker::Model;

// A lent buffer as long as a pattern's. Why it is not one type with `LogNumbers` stands there.
#[derive(Drop)]
pub struct PatternNumbers<'a> {
    numbers: &'a [u16],
}

// In contracts it is the list of its numbers.
impl<'a> Model for PatternNumbers<'a> {
    ghost Value = { List ℕ };

    ghost view = { λ pattern. pattern.numbers.now };

    ghost invariant = { λ pattern. pattern_length ≤ length pattern.numbers.now };
}

impl<'a> PatternNumbers<'a> {
    // None where the buffer is too short.
    pub fn new(numbers: &'a [u16]) -> Option<Self>
        ensures { MatchOption result (length numbers.now < pattern_length) (λ pattern. pattern ≡ numbers.now) }
    {
        if numbers.len() < layout::PATTERN_LENGTH {
            None
        } else {
            Some(PatternNumbers { numbers })
        }
    }

    pub fn labels(&self) -> usize
        ensures { result ≡ labels_in self.now }
    {
        usize::from(self.numbers[0])
    }

    pub fn beads(&self) -> usize
        ensures { result ≡ beads_in self.now }
    {
        usize::from(self.numbers[1])
    }

    // The rule, the state count and the final set of the bead at place j.
    pub fn rule(&self, j: usize) -> u16
        requires { j < most_beads }
        ensures { result ≡ at self.now (rule_at j) }
    {
        self.numbers[layout::RULES + j]
    }

    pub fn states(&self, j: usize) -> u16
        requires { j < most_beads }
        ensures { result ≡ at self.now (states_at j) }
    {
        self.numbers[layout::STATE_COUNTS + j]
    }

    pub fn accepting(&self, j: usize) -> u16
        requires { j < most_beads }
        ensures { result ≡ at self.now (accepting_at j) }
    {
        self.numbers[layout::FINAL_SETS + j]
    }

    // The next set of its state q under the label a.
    pub fn next(&self, j: usize, q: usize, a: usize) -> u16
        requires { (j < most_beads) × (q < most_states) × (a < most_labels) }
        ensures { result ≡ at self.now (next_at j q a) }
    {
        self.numbers[layout::next_sets_at(j, q) + a]
    }

    // A next set: right if state and label are there, 0 if not.
    fn next_ok(&self, j: usize, q: usize, a: usize) -> bool
        requires { (j < most_beads) × (q < most_states) × (a < most_labels) }
        ensures { result ≡ next_ok self.now j q a }
    {
        let states = self.states(j);
        let next = self.next(j, q, a);
        if q < usize::from(states) && a < self.labels() {
            sets::within(next, states)
                && (!rules::needs_one_next(self.rule(j)) || sets::single(next))
        } else {
            next == 0
        }
    }

    // The next sets of a state, one a label.
    fn state_nexts_ok(&self, j: usize, q: usize) -> bool
        requires { (j < most_beads) × (q < most_states) }
        ensures { result ≡ all_below most_labels (next_ok self.now j q) }
    {
        (0..layout::MOST_LABELS).all(|a| self.next_ok(j, q, a))
    }

    // Those of a bead.
    fn bead_nexts_ok(&self, j: usize) -> bool
        requires { j < most_beads }
        ensures { result ≡ all_below most_states (λ q. all_below most_labels (next_ok self.now j q)) }
    {
        (0..layout::MOST_STATES).all(|q| self.state_nexts_ok(j, q))
    }

    // All next sets, bead by bead and state by state: no place is divided into its parts.
    pub fn nexts_ok(&self) -> bool
        ensures { result ≡ nexts_ok self.now }
    {
        (0..layout::MOST_BEADS).all(|j| self.bead_nexts_ok(j))
    }
}
