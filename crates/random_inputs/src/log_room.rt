// The room of a log. It is built step by step, and each step link by link: after each call the room is that of a whole log.
use trial::{get, put};

#[derive(Clone, Copy)]
pub struct LogRoom {
    pub numbers: [u16; LogRoom::LENGTH],
}

impl LogRoom {
    // Where the label sets, the boards, the beginnings of the links and the links stand, and how many numbers there are. They are said here
    // once more, and not taken from `layout`: what is tried against the library shares nothing with it.
    pub const SETS: usize = 1;

    pub const BOARDS: usize = 1025;

    pub const BEGINS: usize = 2049;

    pub const LINKS: usize = 3074;

    pub const LENGTH: usize = 7170;

    // A log of no steps.
    pub fn new() -> LogRoom {
        LogRoom {
            numbers: [0; LogRoom::LENGTH],
        }
    }

    pub fn clear(&mut self) {
        self.numbers.fill(0);
    }

    pub fn step_count(&self) -> u16 {
        self.numbers[0]
    }

    pub fn labels(&self, step: u16) -> u16 {
        get(&self.numbers, LogRoom::SETS + usize::from(step))
    }

    // The steps that a step has links from.
    pub fn links(&self, step: u16) -> &[u16] {
        match self.numbers[LogRoom::BEGINS..LogRoom::LINKS].get(usize::from(step)..) {
            Some([begin, end, ..]) => {
                let part = usize::from(*begin)..usize::from(*end);
                self.numbers[LogRoom::LINKS..].get(part).unwrap_or(&[])
            }
            _ => &[],
        }
    }

    pub fn link_count(&self) -> u16 {
        get(
            &self.numbers,
            LogRoom::BEGINS + usize::from(self.step_count()),
        )
    }

    // A step after the last, with no link yet.
    pub fn add_step(&mut self, labels: u16, board: u16) {
        let step = usize::from(self.step_count());
        let links = get(&self.numbers, LogRoom::BEGINS + step);
        put(&mut self.numbers, LogRoom::SETS + step, labels);
        put(&mut self.numbers, LogRoom::BOARDS + step, board);
        put(&mut self.numbers, LogRoom::BEGINS + step + 1, links);
        self.numbers[0] = self.numbers[0].wrapping_add(1);
    }

    // A link more into the last step.
    pub fn add_link(&mut self, from: u16) {
        let end = LogRoom::BEGINS + usize::from(self.step_count());
        let links = get(&self.numbers, end);
        put(&mut self.numbers, LogRoom::LINKS + usize::from(links), from);
        put(&mut self.numbers, end, links.wrapping_add(1));
    }
}
