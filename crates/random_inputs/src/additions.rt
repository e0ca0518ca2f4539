// Logs with more links or labels than a first, each made in a room lent, whatever that held before.
use crate::below::{any_below, one_below};
use crate::log_room::LogRoom;
use crate::merging::merge_links;
use trial::Random;

// A log that only adds to the first: links, and labels where there are some.
pub fn add_everywhere(log: &LogRoom, label_count: u16, random: &mut Random, second: &mut LogRoom) {
    second.clear();
    for w in 0..log.step_count() {
        let added = one_below(label_count, random.draw(65536) as u16);
        let labels = match log.labels(w) {
            0 => 0,
            old => old | added,
        };
        second.add_step(labels, random.draw(256) as u16);
        let extra = extra_link(log, w, random.draw(65536) as u16);
        merge_links(log, w, extra, second);
    }
}

// A step smaller than w, unless no ninth link fits.
fn extra_link(log: &LogRoom, w: u16, x: u16) -> Option<u16> {
    if log.links(w).len() > 7 {
        return None;
    }
    x.checked_rem(w)
}

// A log that adds a first label to bare steps, about half of them, and nothing else.
pub fn label_bare(log: &LogRoom, label_count: u16, random: &mut Random, second: &mut LogRoom) {
    second.clear();
    second.add_step(0, random.draw(256) as u16);
    for w in 1..log.step_count() {
        let x = random.draw(65536) as u16;
        let labels = match log.labels(w) {
            0 if x % 2 == 0 => 0,
            0 => any_below(label_count, x),
            old => old,
        };
        second.add_step(labels, random.draw(256) as u16);
        merge_links(log, w, None, second);
    }
}
