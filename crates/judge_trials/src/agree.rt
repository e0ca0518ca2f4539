// The judge against the other one: every number of the result, the count, and the work buffer.
use judged_pairs::{Judged, Noise, Pair};
use random_inputs::Links;
use row_counts::{RowCounts, Rows};
use std::num::Wrapping;
use trial::Random;

// `beads` counts the patterns of each length, from 1 bead on, `links` the logs of each way of links, the last one those in which each
// step has a way of its own.
#[derive(Default, Drop)]
pub struct Counts {
    pub pairs: Wrapping<u64>,
    pub beads: [Wrapping<u64>; 8],
    pub links: [Wrapping<u64>; 6],
    pub rows: Wrapping<u64>,
    pub shown: RowCounts,
    pub refused: Wrapping<u64>,
    pub differing: Wrapping<u64>,
    pub wrong_count: Wrapping<u64>,
    pub not_cleared: Wrapping<u64>,
}

// What a trial draws, and the rows that each judge makes of it. Every trial is lent the same rooms.
#[derive(Clone, Copy)]
pub struct Rooms {
    pair: Pair,
    judged: Judged,
    apart: Rows,
}

impl Rooms {
    pub fn new() -> Rooms {
        Rooms {
            pair: Pair::new(),
            judged: Judged::new(),
            apart: [[0; 10]; 1024],
        }
    }
}

impl Counts {
    // The trial's index says how many beads, and how the links are drawn.
    pub fn try_pair(&mut self, i: u64, random: &mut Random, rooms: &mut Rooms) {
        let beads = (i % 8) as usize;
        let links = (i / 8 % 6) as usize;
        self.pairs += 1;
        self.beads[beads] += 1;
        self.links[links] += 1;
        let way = Links::WAYS.get(links).copied();
        let pair = &mut rooms.pair;
        pair.draw(1 + beads as u16, way, random, |random| {
            step_count(i / 48 % 16, random.draw(65536) as u16)
        });
        self.rows += u64::from(pair.log.step_count());
        self.compare(rooms, *random);
    }

    // The result buffer starts from noise, and so does the work buffer in every other trial.
    fn compare(&mut self, rooms: &mut Rooms, random: Random) {
        let work = random.below(65521) as u16;
        let noise = Noise {
            result: Some(random.below(65536) as u16),
            work: (random.below(2) == 0).then_some(work),
        };
        let pair = &rooms.pair;
        rooms.judged.judge(&pair.pattern, &pair.log, noise);
        self.refused += u64::from(rooms.judged.is_refused());
        self.not_cleared += u64::from(!rooms.judged.is_cleared());
        self.compare_rows(pair, &rooms.judged, &mut rooms.apart);
    }

    fn compare_rows(&mut self, pair: &Pair, judged: &Judged, apart: &mut Rows) {
        let whole = self
            .shown
            .judge_apart(&pair.pattern, &pair.log, &judged.rows, apart);
        self.wrong_count += u64::from(judged.answer.count != whole);
        // They are 10240 numbers: a u16 counts them.
        let numbers = judged.rows.as_flattened().iter();
        let differing = numbers
            .zip(apart.as_flattened())
            .fold(0u16, |all, (a, b)| all.wrapping_add(u16::from(a != b)));
        self.differing += u64::from(differing);
    }
}

// At most 6 steps, 41 to 120 steps, or up to 40. The kind is the trial's index, a number: an enum would need a table from index to kind
// beside this one from kind to count.
fn step_count(kind: u64, x: u16) -> u16 {
    match kind {
        0 | 1 => 1 + x % 6,
        2 => 41 + x % 80,
        _ => 1 + x % 40,
    }
}
