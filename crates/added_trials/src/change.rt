// The judge on a log and on a changed one, with a pattern of one bead.
use judged_pairs::TwoLogs;
use random_inputs::Rule;
use std::fmt;
use std::num::Wrapping;

#[derive(Default, Drop)]
pub struct ChangeCounts {
    some_pairs: Wrapping<u64>,
    some_rows: Wrapping<u64>,
    held: Wrapping<u64>,
    pub lost: Wrapping<u64>,
    all_pairs: Wrapping<u64>,
    all_rows: Wrapping<u64>,
    failed: Wrapping<u64>,
    gained: Wrapping<u64>,
    refused: Wrapping<u64>,
}

impl ChangeCounts {
    pub fn compare(&mut self, rooms: &mut TwoLogs) {
        rooms.judge();
        let TwoLogs { pair, one, two, .. } = rooms;
        self.refused += u64::from(one.is_refused());
        self.refused += u64::from(two.is_refused());
        let rule = pair.pattern.rule(0);
        match rule {
            Rule::ForSome => self.some_pairs += 1,
            Rule::ForAll => self.all_pairs += 1,
        }
        let steps = usize::from(pair.log.step_count());
        for (row, other) in one.rows.iter().zip(&two.rows).take(steps) {
            self.compare_row(rule, row[0] == 1, other[0] == 1);
        }
    }

    fn compare_row(&mut self, rule: Rule, before: bool, after: bool) {
        match rule {
            Rule::ForSome => {
                self.some_rows += 1;
                self.held += u64::from(before);
                self.lost += u64::from(before && !after);
            }
            Rule::ForAll => {
                self.all_rows += 1;
                self.failed += u64::from(!before);
                self.gained += u64::from(!before && after);
            }
        }
    }

    // `how` says what the second log has that the first has not.
    pub fn list<W: fmt::Write>(&self, f: &mut fmt::Formatter<W>, how: &str) -> fmt::Result {
        writeln!(
            f,
            "pairs of logs, {how}, one SOME bead: {}",
            self.some_pairs
        )?;
        writeln!(f, "rows compared: {}", self.some_rows)?;
        writeln!(f, "  rows at which SOME held: {}", self.held)?;
        writeln!(f, "  of these, failing in the second: {}", self.lost)?;
        writeln!(f, "pairs of logs, {how}, one ALL bead: {}", self.all_pairs)?;
        writeln!(f, "rows compared: {}", self.all_rows)?;
        writeln!(f, "  rows at which ALL failed: {}", self.failed)?;
        writeln!(f, "  of these, holding in the second: {}", self.gained)?;
        writeln!(f, "logs refused: {}", self.refused)
    }
}
