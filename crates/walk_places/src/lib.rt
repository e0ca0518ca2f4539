// The places of the pivots, 1,024 a bead: how they are laid out before the walk back, and which steps still search for their pivot.
// Rooms are slices of at least so many numbers, as each contract says: an array, or a struct with the bound, would take fewer or be made anew at
// each call.
#![tactic(auto)]

ghost use Rattle.std.specs.Prelude.{◌≡◌, ◌+◌, ◌-◌, ◌*◌, ◌<◌, ◌≤◌, length, get_or};
ghost use Rattle.lists.specs.inner.Filled.{Filled};
ghost use Rattle.layout.specs.Layout.{most_beads, most_steps, pivot_places};
ghost use Rattle.log_buffer.specs.Meaning.{log_of, steps_in};
ghost use Rattle.pattern_buffer.specs.Meaning.{pattern_of};
ghost use Rattle.prefix_phase.specs.Marked.{Tested, PrefixesMarked};
ghost use Rattle.rows.specs.Rows.{pivot_at};
ghost use Rattle.walk_places.specs.Walked.{first_place, Walked};
ghost use Rattle.walk_places.specs.Search.{NoneSearch, LastsIn, LastAt, ServedAt, NextStep};

// What stands at a place before the walk: a step at which the whole pattern holds searches for each pivot but the last, which is itself.
#[tactic(auto, using(crate::proofs::PlaceLaws::place_kit))]
fn first_place(beads: usize, n: usize, prefixes: &[u16], i: usize) -> u16
    requires { (1 ≤ beads) × (beads ≤ most_beads) × (n ≤ most_steps) × (most_steps ≤ length prefixes.now) }
    ensures { result ≡ first_place beads n prefixes.now i }
{
    let v = i % layout::MOST_STEPS;
    if beads <= i / layout::MOST_STEPS {
        return v as u16;
    }
    let whole = rows::is_whole(beads as u16, prefixes[v]);
    if whole { n as u16 } else { 0 }
}

// Lays out the places of the pivots, 1,024 a bead. By the place, as what it ensures is said: two loops, of steps in one of beads, would work the same
// number out again.
#[tactic(auto, using(lists::proofs::FilledLaws::kit))]
fn begin_walk(beads: usize, n: usize, prefixes: &[u16], pivots: &mut [u16])
    requires { (1 ≤ beads) × (beads ≤ most_beads) × (n ≤ most_steps) × (most_steps ≤ length prefixes.now) × (pivot_places ≤ length pivots.old) }
    ensures { Filled (first_place beads n prefixes.now) (most_steps * beads + n) pivots.new }
{
    for i in 0..layout::MOST_STEPS * beads + n {
        pivots[i] = first_place(beads, n, prefixes, i);
    }
}

// The places before the first turn: nothing is looked at yet. It takes the buffers and no `Case`, which would ask for hopeful states and last links.
#[tactic(auto, using(crate::proofs::PlaceLaws::begin_kit))]
pub fn start_walk(
    pattern: &[u16],
    log: &[u16],
    labels: &[u16],
    beads: usize,
    n: usize,
    prefixes: &[u16],
    pivots: &mut [u16],
)
    requires tested { Tested pattern.now log.now labels.now }
    requires marks { PrefixesMarked (log_of log.now labels.now) (pattern_of pattern.now) (steps_in log.now) prefixes.now }
    requires counts { (beads ≡ get_or pattern.now 1 0) × (n ≡ get_or log.now 0 0) × (most_steps ≤ length prefixes.now) × (pivot_places ≤ length pivots.old) }
    ensures { Walked (log_of log.now labels.now) (pattern_of pattern.now) n beads 0 0 0 pivots.new }
{
    begin_walk(beads, n, prefixes, pivots);
}

// Does no step from `from` on search for its pivot any more? From the last one down, because late steps search longest. It stands outside of
// `Places`, whose pivots picked last are steps: that is nothing to it.
pub fn none_search(k: usize, from: usize, n: usize, pivots: &[u16]) -> bool
    requires { (k < most_beads) × (from ≤ n) × (n ≤ most_steps) × (pivot_places ≤ length pivots.now) }
    ensures { NoneSearch k from n pivots.now result }
{
    let places = layout::MOST_STEPS * k;
    pivots[places + from..places + n]
        .iter()
        .rev()
        .all(|place| usize::from(*place) != n)
}

// The places of the pivots of n steps while so many beads are left. A step that still searches for the pivot of the last of these has n there.
#[derive(Clone, Copy)]
pub struct Places<'a> {
    pub left: usize,
    pub n: usize,
    pub pivots: &'a [u16],
    ghost lasts_in: { LastsIn left n pivots.now },
    ghost inside: { (left ≤ most_beads) × (n ≤ most_steps) × (pivot_places ≤ length pivots.now) },
}

impl<'a> Places<'a> {
    // The pivot of the step after so many beads.
    fn pivot_after(&self, beads: usize, step: usize) -> usize
        requires { (beads ≤ most_beads) × (step < most_steps) }
        ensures { result ≡ get_or self.now.pivots.now (pivot_at beads step) 0 }
    {
        usize::from(self.pivots[layout::MOST_STEPS * beads + step])
    }

    // The pivot of the step v picked last.
    #[tactic(auto, using(crate::proofs::SearchLaws::last_at))]
    pub fn last_pivot(&self, v: usize) -> usize
        requires { v < self.now.n }
        ensures { LastAt self.now.left self.now.pivots.now v result }
    {
        self.pivot_after(self.left, v)
    }

    // Does the step v still search, and is there a candidate that serves before its pivot picked last?
    #[tactic(auto, using(crate::proofs::SearchLaws::served_kit))]
    fn is_served(&self, found: &[u16], v: usize) -> bool
        requires { (1 ≤ self.now.left) × (v < self.now.n) × (most_steps ≤ length found.now) }
        ensures { ServedAt self.now.left self.now.n found.now self.now.pivots.now v result }
    {
        self.pivot_after(self.left - 1, v) == self.n && found[self.last_pivot(v)] != 0
    }

    // The next such step, from v on.
    pub fn next_step(&self, found: &[u16], v: usize) -> Option<usize>
        requires { (1 ≤ self.now.left) × (v ≤ self.now.n) × (most_steps ≤ length found.now) }
        ensures { NextStep self.now.left self.now.n found.now self.now.pivots.now v result }
    {
        (v..self.n).find(|w| self.is_served(found, *w))
    }
}
