// Logs of all shapes.
use crate::labels::Labels;
use crate::links::{Links, draw_links};
use crate::log_room::LogRoom;
use trial::Random;

// How many labels there are, and how the steps' labels and links are drawn: with no way of links, in one of all ways for each step.
#[derive(Clone, Copy)]
pub struct Shape {
    pub label_count: u16,
    pub labels: Labels,
    pub links: Option<Links>,
}

// A log of this many steps, at least one.
pub fn draw_log(steps: u16, shape: Shape, random: &mut Random) -> LogRoom {
    let mut log = LogRoom::new();
    draw_steps(&mut log, steps, shape, random);
    log
}

// The same in a room lent, whatever it held before.
pub fn redraw_log(log: &mut LogRoom, steps: u16, shape: Shape, random: &mut Random) {
    log.clear();
    draw_steps(log, steps, shape, random);
}

fn draw_steps(log: &mut LogRoom, steps: u16, shape: Shape, random: &mut Random) {
    log.add_step(0, random.draw(256) as u16);
    for w in 1..steps {
        draw_step(log, w, shape, random);
    }
}

// Step w, the next of the log, with labels, board and links of its own.
pub fn draw_step(log: &mut LogRoom, w: u16, shape: Shape, random: &mut Random) {
    let set = shape.labels.draw_set(shape.label_count, random);
    log.add_step(set, random.draw(256) as u16);
    draw_links(log, w, shape.links, random);
}
