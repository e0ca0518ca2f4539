// The links of a step, with one more among them.
use crate::log_room::LogRoom;

// Into the last step of the second log: the links that step w of the first has, and one from `extra`, in rising order, each once.
pub fn merge_links(log: &LogRoom, w: u16, extra: Option<u16>, second: &mut LogRoom) {
    let links = log.links(w);
    for from in (0..w).filter(|p| extra == Some(*p) || links.contains(p)) {
        second.add_link(from);
    }
}
