// A pattern's room, and the header that is written with it.
use answer::Answer;
use random_inputs::{PatternRoom, add_power, draw_pattern, reduced};
use std::alloc::{AllocError, Global};
use std::fmt::Write;
use text_changes::Text;
use trial::Random;
use writer_trials::Written;

#[derive(Drop)]
pub struct WrittenPattern {
    pattern: PatternRoom,
    header: String,
}

static REFUSALS: [(u16, &str); 2] = [
    (6, "refused with 6"),
    (12, "refused with 12, their label count changed"),
];

impl Written for WrittenPattern {
    const TEXT: Text = Text::Pattern;

    const LONGEST: usize = 16384;

    fn refusals() -> &'static [(u16, &'static str)] {
        &REFUSALS
    }

    fn draw(alloc: Global, i: u64, random: &mut Random) -> Result<WrittenPattern, AllocError> {
        let pattern = draw_pattern((1 + i % 8) as u16, random);
        let header = header(alloc, pattern.label_count(), random.draw(1000000))?;
        Ok(WrittenPattern { pattern, header })
    }

    fn numbers(&self) -> &[u16] {
        &self.pattern.numbers
    }

    fn change(&mut self, random: &mut Random) {
        let kind = random.draw(4);
        let x = random.draw(65536) as u16;
        let place = place_of(&self.pattern, kind, x);
        add_power(&mut self.pattern.numbers, place, random.draw(6) as u16);
    }

    fn write(&self, text: &mut [u8]) -> Answer {
        pattern_writer::write_pattern(&self.pattern.numbers, self.header.as_bytes(), text)
    }

    fn read(&self, text: &[u8], numbers: &mut [u16]) -> Answer {
        pattern::read_pattern(text, numbers)
    }
}

// As many names as labels, each with a number of its own.
fn header(alloc: Global, labels: u16, first: u64) -> Result<String, AllocError> {
    let mut header = String::from_str(alloc, "bead rule state final")?;
    for i in 0..labels {
        let number = first.wrapping_add(u64::from(i));
        write!(header, " n{number}")?;
    }
    header.push('\n')?;
    Ok(header)
}

// A number in front of the next sets, any number, or a next set that the pattern has: by the number that is drawn.
fn place_of(pattern: &PatternRoom, kind: u64, x: u16) -> usize {
    match kind {
        0 => usize::from(x) % PatternRoom::NEXTS,
        1 => usize::from(x) % PatternRoom::LENGTH,
        _ => next_place(pattern, x),
    }
}

fn next_place(pattern: &PatternRoom, x: u16) -> usize {
    let bead = reduced(x, pattern.bead_count());
    let state = reduced(x / 8, pattern.state_count(bead));
    let label = reduced(x / 128, pattern.label_count());
    PatternRoom::next_place(bead, state, label)
}
