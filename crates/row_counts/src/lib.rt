// The rows of a log by the other judge, counted by what they show.
#![tactic(auto)]

use other_judge::{Row, STEPS, Settled, settle_pairs};
use random_inputs::{LogRoom, PatternRoom, has};
use std::num::Wrapping;

// The rows of a log.
pub type Rows = [Row; 1024];

// How many rows have each prefix and are whole necklaces of each length, from 1 bead on; in how many the front gives other pivots, in
// how many of these the library has them, in how many a pivot stands twice; and how many of step 0 have a prefix.
#[derive(Default, Drop)]
pub struct RowCounts {
    pub prefixes: [Wrapping<u64>; 8],
    pub whole: [Wrapping<u64>; 8],
    pub front: Wrapping<u64>,
    pub front_chosen: Wrapping<u64>,
    pub twice: Wrapping<u64>,
    pub start: Wrapping<u64>,
}

impl RowCounts {
    // The rows by the other judge, counted beside the library's: those of no step all 0, in a room lent, whatever it held before.
    // It answers at how many steps the whole pattern holds.
    pub fn judge_apart(
        &mut self,
        pattern: &PatternRoom,
        log: &LogRoom,
        chosen: &[Row],
        rows: &mut Rows,
    ) -> u16 {
        let mut pairs = [[0; STEPS]; STEPS];
        settle_pairs(pattern, log, &mut pairs);
        let settled = Settled::new(pattern, log, &pairs);
        rows.as_flattened_mut().fill(0);
        let mut whole = 0u16;
        for ((v, row), chosen) in (0..log.step_count()).zip(rows.iter_mut()).zip(chosen) {
            *row = settled.row(v);
            self.count_prefixes(v, row[0]);
            if settled.holds(v) {
                whole = whole.wrapping_add(1);
                self.count_whole(&settled, v, row, chosen);
            }
        }
        whole
    }

    fn count_prefixes(&mut self, v: u16, prefixes: u16) {
        self.start += u64::from(v == 0 && prefixes != 0);
        for (k, count) in (0..8).zip(self.prefixes.iter_mut()) {
            *count += u64::from(has(prefixes, k));
        }
    }

    fn count_whole(&mut self, settled: &Settled, v: u16, row: &Row, chosen: &Row) {
        let beads = usize::from(settled.beads);
        if let Some(count) = self.whole.get_mut(beads.wrapping_sub(1)) {
            *count += 1;
        }
        // Pivots do not fall: one that stands twice stands beside itself.
        let mut pairs = row[1..].iter().zip(&row[2..]).take(beads);
        self.twice += u64::from(pairs.any(|(pivot, next)| pivot == next));
        let front = settled.front_row(v);
        self.front += u64::from(front != *row);
        self.front_chosen += u64::from(front != *row && front == *chosen);
    }
}
