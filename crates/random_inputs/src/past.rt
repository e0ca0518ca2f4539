// A log that is alike to a first in the past of a step.
use crate::labels::Labels;
use crate::log_room::LogRoom;
use crate::logs::{Shape, draw_step};
use crate::merging::merge_links;
use trial::Random;

// The steps that lead to a step, and the step itself, of a log of at most 128 steps.
#[derive(Clone, Copy)]
pub struct Past {
    steps: [bool; 128],
}

impl Past {
    pub fn has(&self, w: u16) -> bool {
        self.steps.get(usize::from(w)) == Some(&true)
    }

    fn add(&mut self, w: u16) {
        if let Some(step) = self.steps.get_mut(usize::from(w)) {
            *step = true;
        }
    }
}

pub fn past_of(log: &LogRoom, v: u16) -> Past {
    let mut past = Past {
        steps: [false; 128],
    };
    past.add(v);
    for w in (1..=v).rev() {
        if past.has(w) {
            for p in log.links(w) {
                past.add(*p);
            }
        }
    }
    past
}

// A log with this many steps, more than v, in a room lent, whatever that held before: the past of v is that of the first log, every
// other step is drawn anew, and so is every board.
pub fn change_beyond(
    log: &LogRoom,
    past: &Past,
    steps: u16,
    label_count: u16,
    random: &mut Random,
    second: &mut LogRoom,
) {
    let anew = Shape {
        label_count,
        labels: Labels::Any,
        links: None,
    };
    second.clear();
    for w in 0..steps {
        let board = random.draw(256) as u16;
        if past.has(w) {
            second.add_step(log.labels(w), board);
            merge_links(log, w, None, second);
        } else {
            draw_step(second, w, anew, random);
        }
    }
}
