// The links into a step: one, or some with a drawn gap from each to the next.
use crate::below::reduced;
use crate::log_room::LogRoom;
use trial::Random;

// Where they come from.
#[derive(Clone, Copy)]
pub enum Links {
    Chain,
    Tree,
    Near,
    LastEight,
    Scattered,
}

#[derive(Clone, Copy)]
struct Way {
    first: u16,
    gap: u64,
    most: u64,
}

impl Links {
    pub const WAYS: [Links; 5] = [
        Links::Chain,
        Links::Tree,
        Links::Near,
        Links::LastEight,
        Links::Scattered,
    ];

    // How the links into w are drawn.
    fn way(self, w: u16, x: u16) -> Way {
        let (first, gap, most) = match self {
            Links::Chain => (w.saturating_sub(1), 1, 1),
            Links::Tree => (reduced(x, w), 1, 1),
            Links::Near => (w.saturating_sub(1 + x % 4), 2, 4),
            Links::LastEight => (w.saturating_sub(8), 1, 8),
            Links::Scattered => (reduced(x, w), 1 + u64::from(w) / 4, 8),
        };
        Way { first, gap, most }
    }
}

// The links into w, the last step; where no way is given, one is drawn for this step.
pub fn draw_links(log: &mut LogRoom, w: u16, links: Option<Links>, random: &mut Random) {
    let drawn = Links::WAYS[random.draw(5) as usize];
    let x = random.draw(65536) as u16;
    let way = links.unwrap_or(drawn).way(w, x);
    let count = 1 + random.draw(way.most);
    way.add_links(log, w, count, random);
}

impl Way {
    // At most `count` links, all from steps before w.
    fn add_links(self, log: &mut LogRoom, w: u16, count: u64, random: &mut Random) {
        let mut from = u64::from(self.first);
        for _ in 0..count {
            if from < u64::from(w) {
                log.add_link(from as u16);
            }
            from = from.saturating_add(1 + random.draw(self.gap));
        }
    }
}
