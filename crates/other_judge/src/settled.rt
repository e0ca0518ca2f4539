// A log judged: the rows of its steps, with the pivots found backward.
use crate::STEPS;
use crate::pairs::Pairs;
use crate::prefixes::settle_prefixes;
use random_inputs::{LogRoom, PatternRoom, has};
use trial::{get, put};

// A step's ten numbers: its prefixes, and the pivots where the whole pattern holds, else 0.
pub type Row = [u16; 10];

#[derive(Clone, Copy)]
pub struct Settled<'a> {
    pub beads: u16,
    pairs: &'a Pairs,
    begun: [u16; STEPS],
}

impl<'a> Settled<'a> {
    // The pairs are those of this pattern and this log.
    pub fn new(pattern: &PatternRoom, log: &LogRoom, pairs: &'a Pairs) -> Settled<'a> {
        let begun = settle_prefixes(log.step_count(), pairs);
        Settled {
            beads: pattern.bead_count(),
            pairs,
            begun,
        }
    }

    // Does the whole pattern hold at v?
    pub fn holds(&self, v: u16) -> bool {
        has(self.begun(v), self.beads)
    }

    pub fn row(&self, v: u16) -> Row {
        let mut row = [0; 10];
        row[0] = self.begun(v) >> 1;
        if self.holds(v) {
            self.fill_pivots(v, &mut row);
        }
        row
    }

    // Each pivot is the smallest step that serves. The one before the first bead comes out as 0: no other has bit 0. Filled by index, from
    // the last bead down: a `zip` would have to turn round a part of the row, and say its length twice.
    fn fill_pivots(&self, v: u16, row: &mut Row) {
        let mut pivot = v;
        let pivots = &mut row[1..];
        put(pivots, usize::from(self.beads), v);
        for k in (0..self.beads).rev() {
            let Some(found) = self.smallest(k, pivot) else {
                return;
            };
            pivot = found;
            put(pivots, usize::from(k), pivot);
        }
    }

    // The smallest step, up to v, at which the first k beads hold and from which the next one reaches v.
    fn smallest(&self, k: u16, v: u16) -> Option<u16> {
        (0..=v).find(|u| has(self.begun(*u) & self.on(*u, v), k))
    }

    pub(crate) fn begun(&self, v: u16) -> u16 {
        get(&self.begun, usize::from(v))
    }

    pub(crate) fn on(&self, u: u16, v: u16) -> u16 {
        match self.on_from(u) {
            Some(beads) => get(beads, usize::from(v)),
            None => 0,
        }
    }

    // The beads on u and each step.
    pub(crate) fn on_from(&self, u: u16) -> Option<&[u16; STEPS]> {
        let pairs = self.pairs;
        pairs.get(usize::from(u))
    }
}
