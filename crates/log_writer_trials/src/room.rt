// A log's room, and how many labels its text has.
use answer::Answer;
use random_inputs::{Labels, Links, LogRoom, Shape, add_power, draw_log, reduced};
use std::alloc::{AllocError, Global};
use text_changes::Text;
use trial::Random;
use writer_trials::Written;

#[derive(Drop)]
pub struct WrittenLog {
    log: LogRoom,
    label_count: u16,
}

static REFUSALS: [(u16, &str); 1] = [(7, "refused with 7")];

impl Written for WrittenLog {
    const TEXT: Text = Text::Log;

    const LONGEST: usize = 65535;

    fn refusals() -> &'static [(u16, &'static str)] {
        &REFUSALS
    }

    // The trial's index says how many labels there are, about how many steps, and how the links are drawn.
    fn draw(_alloc: Global, i: u64, random: &mut Random) -> Result<WrittenLog, AllocError> {
        let label_count = 1 + (i / 48 % 16) as u16;
        let steps = step_count(i % 8, random.draw(65536) as u16);
        let shape = Shape {
            label_count,
            labels: Labels::draw(random),
            links: Links::WAYS.get((i / 8 % 6) as usize).copied(),
        };
        let log = draw_log(steps, shape, random);
        Ok(WrittenLog { log, label_count })
    }

    fn numbers(&self) -> &[u16] {
        &self.log.numbers
    }

    fn change(&mut self, random: &mut Random) {
        let kind = random.draw(6);
        let x = random.draw(65536) as u16;
        let place = place_of(&self.log, kind, x);
        add_power(&mut self.log.numbers, place, random.draw(8) as u16);
    }

    fn write(&self, text: &mut [u8]) -> Answer {
        log_writer::write_log(&self.log.numbers, self.label_count, text)
    }

    fn read(&self, text: &[u8], numbers: &mut [u16]) -> Answer {
        log_reader::read_log(text, self.label_count, numbers)
    }
}

// At most 3 steps, 257 to 512 steps, or up to 60. The kind is the trial's index, a number: an enum would need a table from index to kind
// beside this one from kind to count.
fn step_count(kind: u64, x: u16) -> u16 {
    match kind {
        0 => 1 + x % 3,
        1 => 257 + x % 256,
        _ => 1 + x % 60,
    }
}

// The step count, any number, or a label set, a board, a beginning or a link that the log has; which is drawn, a number, and matched at once.
fn place_of(log: &LogRoom, kind: u64, x: u16) -> usize {
    let step = usize::from(reduced(x, log.step_count()));
    match kind {
        0 => 0,
        1 => usize::from(x) % LogRoom::LENGTH,
        2 => LogRoom::SETS + step,
        3 => LogRoom::BOARDS + step,
        4 => LogRoom::BEGINS + 1 + step,
        _ => LogRoom::LINKS + usize::from(reduced(x, log.link_count())),
    }
}
