// The pattern reader: from a text to the numbers of a pattern buffer, or the refusal of document 01 that applies.
#![tactic(auto)]

ghost use Rattle.std.specs.Prelude.{◌≡◌};
ghost use Rattle.pattern_line.specs.Answers.{refusal_number};
ghost use Rattle.pattern.specs.Answer.{refused_with, pattern_answer, pattern_after};

use crate::reading::read_text;
use answer::Answer;
use pattern_byte::byte_of;
use pattern_line::refusals::Refusal;
use text::faults::Fault;

mod reading;

// The refusal of a text, with the place in the line at fault. Each reader has this function: the refusals and `byte_of` are its format's own.
#[tactic(auto, using(crate::proofs::ReadingLaws::refuse_kit))]
fn refuse(text: &[u8], fault: Fault<Refusal>) -> Answer
    ensures { result ≡ refused_with text.now (refusal_number fault.refusal) fault.line }
{
    let number = u16::from(fault.refusal);
    answer::refused_in(number, fault.line, byte_of(text, number, fault.line))
}

// Reads the text into a buffer of its own and copies that into the lent one where the text is accepted, so a refusal changes nothing.
#[tactic(auto, using(crate::proofs::ReadingLaws::pattern_kit))]
pub fn read_pattern(text: &[u8], pattern: &mut [u16]) -> Answer
    ensures value { result ≡ pattern_answer text.now pattern.old }
    ensures pattern_after { pattern.new ≡ pattern_after text.now pattern.old }
{
    if pattern.len() < layout::PATTERN_LENGTH {
        return answer::refused(2, 0);
    }
    let mut buffer = [0u16; layout::PATTERN_LENGTH];
    match read_text(text, &mut buffer) {
        Err(fault) => refuse(text, fault),
        Ok(count) => {
            pattern[..layout::PATTERN_LENGTH].copy_from_slice(&buffer);
            answer::accepted(count)
        }
    }
}
