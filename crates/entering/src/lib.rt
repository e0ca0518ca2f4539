// Entering a step: the states to which its labels lead from a state of a bead.
#![tactic(auto)]

ghost use Rattle.std.specs.Prelude.{◌≡◌, cond, eqb, ◌+◌, ◌<◌, ◌≤◌, length};
ghost use Rattle.lists.specs.inner.Filled.{Filled};
ghost use Rattle.lists.specs.Places.{at};
ghost use Rattle.sets.specs.Sets.{set_of, singleton, members};
ghost use Rattle.necklace.specs.inner.Forward.{reached};
ghost use Rattle.layout.specs.Layout.{most_beads, most_labels, most_states, pattern_length, rule_at, states_at, accepting_at};
ghost use Rattle.layout.specs.Layout.{next_at, set_width, work_length};
ghost use Rattle.pattern_buffer.specs.Meaning.{automaton_of};
ghost use Rattle.entering.specs.Entering.{union_over, spread_over, Grown};

// The value of each state, from the leaf. Written by index: of a loop over `iter_mut().enumerate()` a proof knows no values.
#[tactic(auto, using(lists::proofs::FilledLaws::kit))]
pub fn state_values() -> [u16; layout::MOST_STATES]
    ensures { Filled singleton most_states result }
{
    let mut values = [0u16; layout::MOST_STATES];
    for state in 0..layout::MOST_STATES as u16 {
        values[usize::from(state)] = sets::singleton(state);
    }
    values
}

// The set, if so, or the empty one.
pub fn set_if(b: bool, set: u16) -> u16
    ensures { result ≡ cond b set 0 }
{
    if b { set } else { 0 }
}

// The union of the sets of a list whose place from `from` on is a member of a set. The values are laid out before the loop, and no turn of it
// branches: the compiler then looks at all sixteen at once.
#[tactic(auto, using(crate::proofs::EnterLaws::over_kit))]
pub fn union_over(set: u16, list: &[u16], from: usize) -> u16
    requires { (from < work_length) × (from + set_width ≤ length list.now) }
    ensures { result ≡ set_of set_width (union_over set list.now from) }
{
    let values = state_values();
    let mut all = 0;
    for i in 0..layout::SET_WIDTH {
        let there = sets::overlaps(set, values[i]);
        all = sets::union(all, set_if(there, list[from + i]));
    }
    all
}

// Adds a set to those of a list, a set a state, whose place is a member of another. The values are laid out before the loop, as in
// `union_over`.
#[tactic(auto, using(crate::proofs::GrowLaws::spread_kit))]
pub fn spread(set: u16, more: u16, list: &mut [u16])
    requires { most_states ≤ length list.old }
    ensures { Grown most_states (spread_over set more) list.old list.new }
{
    let values = state_values();
    for r in 0..layout::MOST_STATES {
        let there = sets::overlaps(set, values[r]);
        list[r] = sets::union(list[r], set_if(there, more));
    }
}

// A bead of a pattern buffer, by its place. It holds the numbers and no `PatternNumbers`: that is made by a test of the length, as an `Option`,
// and is not copied; a bead is of a buffer that has passed all tests, and each turn of a pass gets a copy.
#[derive(Clone, Copy)]
pub struct Bead<'a> {
    pub pattern: &'a [u16],
    pub place: usize,
    ghost long: { pattern_length ≤ length pattern.now },
    ghost there: { place < most_beads },
}

impl<'a> Bead<'a> {
    pub fn new(pattern: &'a [u16], place: usize) -> Bead<'a>
        requires { (pattern_length ≤ length pattern.now) × (place < most_beads) }
        ensures { (result.pattern.now ≡ pattern.now) × (result.place ≡ place) }
    {
        Bead { pattern, place }
    }

    // Is it an ALL bead?
    pub fn is_all(self) -> bool
        ensures { result ≡ eqb (at self.entry.pattern.now (rule_at self.entry.place)) 2 }
    {
        self.pattern[layout::RULES + self.place] == layout::ALL
    }

    // How many states it has.
    pub fn states(self) -> u16
        ensures { result ≡ at self.entry.pattern.now (states_at self.entry.place) }
    {
        self.pattern[layout::STATE_COUNTS + self.place]
    }

    // The set of its accepting states.
    pub fn accepting(self) -> u16
        ensures { result ≡ at self.entry.pattern.now (accepting_at self.entry.place) }
    {
        self.pattern[layout::FINAL_SETS + self.place]
    }

    // The next set of a state at a label.
    pub fn next(self, state: usize, label: usize) -> u16
        requires { (state < most_states) × (label < most_labels) }
        ensures { result ≡ at self.entry.pattern.now (next_at self.entry.place state label) }
    {
        self.pattern[layout::next_sets_at(self.place, state) + label]
    }

    // The states to which entering a vertex with these labels leads from a state: the state itself where there are none.
    #[tactic(auto, using(crate::proofs::EnterLaws::enter_kit))]
    pub fn enter(self, labels: u16, state: u16) -> u16
        requires { state < most_states }
        ensures { result ≡ set_of most_states (reached (automaton_of self.entry.pattern.now self.entry.place) (members most_labels labels) state) }
    {
        if labels == 0 {
            return sets::singleton(state);
        }
        let nexts = layout::next_sets_at(self.place, usize::from(state));
        union_over(labels, self.pattern, nexts)
    }
}
