// With one bead, links and labels that are only added take no SOME away and give no ALL back. A first label on a bare step is no such
// addition: it takes the empty letter away, and a SOME may be lost.
use crate::change::ChangeCounts;
use judged_pairs::TwoLogs;
use random_inputs::{Links, add_everywhere, label_bare};
use std::fmt;
use trial::Random;

// Of the logs with additions, and of those with first labels.
#[derive(Default, Drop)]
pub struct Counts {
    added: ChangeCounts,
    labelled: ChangeCounts,
}

impl Counts {
    // The trial's index says how the links are drawn.
    pub fn try_pair(&mut self, i: u64, random: &mut Random, rooms: &mut TwoLogs) {
        let way = Links::WAYS.get((i % 6) as usize).copied();
        let pair = &mut rooms.pair;
        pair.draw(1, way, random, |random| 1 + random.draw(40) as u16);
        let labels = pair.pattern.label_count();
        add_everywhere(&pair.log, labels, random, &mut rooms.second);
        self.added.compare(rooms);
        label_bare(&rooms.pair.log, labels, random, &mut rooms.second);
        self.labelled.compare(rooms);
    }
}

// The last line says whether first labels took a SOME away.
impl fmt::Display for Counts {
    fn fmt<W: fmt::Write>(&self, f: &mut fmt::Formatter<W>) -> fmt::Result {
        self.added.list(f, "the second only adds")?;
        self.labelled.list(f, "bare steps get labels")?;
        let lost = u64::from(self.labelled.lost.0 > 0);
        writeln!(
            f,
            "labels on bare steps made a SOME fail, 1 if more than none: {lost}"
        )
    }
}
