// The label sets of a log.
use crate::below::{any_below, one_below};
use trial::Random;

// How they are drawn.
#[derive(Clone, Copy)]
pub enum Labels {
    One,
    OneOrNone,
    Any,
    // Mostly none, else any set.
    Seldom,
    // All or most labels.
    Most,
}

impl Labels {
    const WAYS: [Labels; 5] = [
        Labels::One,
        Labels::OneOrNone,
        Labels::Any,
        Labels::Seldom,
        Labels::Most,
    ];

    pub fn draw(random: &mut Random) -> Labels {
        Labels::WAYS[random.draw(5) as usize]
    }

    // A step's set, of the first n labels.
    pub fn draw_set(self, n: u16, random: &mut Random) -> u16 {
        let bare = random.draw(4);
        let x = random.draw(65536) as u16;
        match self {
            Labels::One => one_below(n, x),
            Labels::OneOrNone if bare % 2 == 0 => one_below(n, x),
            Labels::Any => any_below(n, x),
            Labels::Seldom if bare == 0 => any_below(n, x),
            Labels::Most => any_below(n, x | x >> 7 | x << 9),
            Labels::OneOrNone | Labels::Seldom => 0,
        }
    }
}
