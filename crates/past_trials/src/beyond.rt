// The judge on a log and on a second one that is alike in the past of a step.
use judged_pairs::TwoLogs;
use random_inputs::{Links, Past, change_beyond, past_of};
use std::fmt;
use std::num::Wrapping;
use trial::Random;

#[derive(Default, Drop)]
pub struct Counts {
    pairs: Wrapping<u64>,
    rows: Wrapping<u64>,
    with_prefix: Wrapping<u64>,
    whole: Wrapping<u64>,
    differing: Wrapping<u64>,
    elsewhere: Wrapping<u64>,
    elsewhere_differing: Wrapping<u64>,
    refused: Wrapping<u64>,
}

impl Counts {
    // The trial's index says how many beads, and how the links are drawn. The second log has up to 20 steps beyond the step.
    pub fn try_pair(&mut self, i: u64, random: &mut Random, rooms: &mut TwoLogs) {
        let way = Links::WAYS.get((i / 8 % 6) as usize).copied();
        let pair = &mut rooms.pair;
        pair.draw((1 + i % 8) as u16, way, random, |random| {
            1 + random.draw(40) as u16
        });
        let step = random.draw(u64::from(pair.log.step_count())) as u16;
        let past = past_of(&pair.log, step);
        let steps = step.wrapping_add(1 + random.draw(21) as u16);
        let labels = pair.pattern.label_count();
        change_beyond(&pair.log, &past, steps, labels, random, &mut rooms.second);
        self.pairs += 1;
        self.compare(&past, rooms);
    }

    fn compare(&mut self, past: &Past, rooms: &mut TwoLogs) {
        rooms.judge();
        let TwoLogs {
            pair,
            second,
            one,
            two,
        } = rooms;
        self.refused += u64::from(one.is_refused());
        self.refused += u64::from(two.is_refused());
        let steps = pair.log.step_count().min(second.step_count());
        for ((w, row), other) in (0..steps).zip(&one.rows).zip(&two.rows) {
            let differing = u64::from(row != other);
            if past.has(w) {
                self.count_row(pair.pattern.bead_count(), row[0]);
                self.differing += differing;
            } else {
                self.elsewhere += 1;
                self.elsewhere_differing += differing;
            }
        }
    }

    fn count_row(&mut self, beads: u16, prefixes: u16) {
        self.rows += 1;
        self.with_prefix += u64::from(prefixes != 0);
        self.whole += u64::from(random_inputs::has(prefixes, beads.wrapping_sub(1)));
    }
}

impl fmt::Display for Counts {
    fn fmt<W: fmt::Write>(&self, f: &mut fmt::Formatter<W>) -> fmt::Result {
        writeln!(
            f,
            "pairs of logs alike in the past of a step: {}",
            self.pairs
        )?;
        writeln!(f, "rows of that past compared: {}", self.rows)?;
        writeln!(f, "  rows with a prefix: {}", self.with_prefix)?;
        writeln!(f, "  whole necklaces: {}", self.whole)?;
        writeln!(f, "  rows that differ: {}", self.differing)?;
        writeln!(f, "rows of other steps in both logs: {}", self.elsewhere)?;
        writeln!(f, "  rows that differ: {}", self.elsewhere_differing)?;
        writeln!(f, "logs refused: {}", self.refused)
    }
}
