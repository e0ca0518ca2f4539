// The whole text: its lines, then what needs all of them.
ghost use Rattle.std.specs.Prelude.{◌≡◌, []};
ghost use Rattle.pattern_store.specs.Buffer.{buffer_of};
ghost use Rattle.pattern_late.specs.Late.{Bounded};
ghost use Rattle.pattern_walk.specs.Reading.{HeaderRead};
ghost use Rattle.pattern.specs.inner.Reading.{text_said, concluded, TextRead};

use pattern_late::find_late;
use pattern_line::refusals::Refusal;
use pattern_walk::{read_first, read_rows};
use text::faults::{Fault, in_line};

// The label count in a buffer that holds nothing.
#[tactic(auto, using(crate::proofs::ReadingLaws::begin_kit))]
fn begin(buffer: &mut [u16; layout::PATTERN_LENGTH], labels: u16)
    requires { buffer.old ≡ buffer_of (record { labels = 0; rows = [] }) }
    ensures { buffer.new ≡ buffer_of (record { labels = labels; rows = [] }) }
{
    buffer[0] = labels;
}

// What needs all rows: that there is one, then the next sets. Answers how many beads there are.
#[tactic(auto, using(crate::proofs::ReadingLaws::conclude_kit))]
fn conclude(buffer: &[u16; layout::PATTERN_LENGTH]) -> Result<u16, Fault<Refusal>>
    requires { Bounded buffer.now }
    ensures { text_said result ≡ concluded buffer.now }
{
    if buffer[1] == 0 {
        return in_line(Err(Refusal::Order), 1);
    }
    find_late(buffer)?;
    Ok(buffer[1])
}

// How many beads the text has, from the header on, or why it is refused; where it is accepted, the buffer has its numbers.
#[tactic(auto, using(crate::proofs::ReadingLaws::text_kit))]
fn read_body(
    text: &[u8],
    start: usize,
    labels: u16,
    buffer: &mut [u16; layout::PATTERN_LENGTH],
) -> Result<u16, Fault<Refusal>>
    requires { HeaderRead text.now labels start × (buffer.old ≡ buffer_of (record { labels = labels; rows = [] })) }
    ensures { TextRead text.now result buffer.new }
{
    read_rows(text, start, labels, buffer)?;
    conclude(buffer)
}

// How many beads the text has, or why it is refused; where it is accepted, the buffer, which holds nothing before, has its numbers.
#[tactic(auto, using(crate::proofs::ReadingLaws::text_kit))]
pub fn read_text(
    text: &[u8],
    buffer: &mut [u16; layout::PATTERN_LENGTH],
) -> Result<u16, Fault<Refusal>>
    requires { buffer.old ≡ buffer_of (record { labels = 0; rows = [] }) }
    ensures { TextRead text.now result buffer.new }
{
    let (labels, at) = read_first(text)?;
    begin(buffer, labels);
    read_body(text, at, labels, buffer)
}
