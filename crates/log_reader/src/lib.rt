// The log reader: from a text to the numbers of the log buffer, or the refusal that document 01 gives it.
#![tactic(auto)]

ghost use Rattle.std.specs.Prelude.{◌≡◌, ◌≤◌, length};
ghost use Rattle.layout.specs.Layout.{most_labels, log_length};
ghost use Rattle.log_line.specs.Format.{log_text};
ghost use Rattle.log_line.specs.Answers.{refusal_number};
ghost use Rattle.log_reader.specs.Answer.{refused_with, text_answer, log_answer, log_after};
ghost use Rattle.log_walk.specs.Filled.{answered, answer_of, filled_by};

use answer::Answer;
use log_byte::byte_of;
use log_line::header::read_header;
use log_line::refusals::Refusal;
use log_walk::read_steps;
use text::faults::{Fault, in_line};
use text::lines::{has_bad_size, whole_line};

// How many steps the text has: its size, the header, and the lines below it.
#[tactic(auto, using(crate::proofs::TextLaws::text_kit))]
fn read_text(text: &[u8], labels: u16, log: &mut [u16]) -> Result<u16, Fault<Refusal>>
    requires { (labels ≤ most_labels) × (log_length ≤ length log.old) }
    ensures value { answered result ≡ answer_of (log_text labels text.now) }
    ensures log_after { log.new ≡ filled_by (log_text labels text.now) log.old }
{
    if has_bad_size(text, layout::MOST_LOG_TEXT) {
        return Err(Fault {
            refusal: Refusal::Size,
            line: 0,
        });
    }
    let n = in_line(whole_line(text, layout::MOST_LINE, Refusal::Malformed), 1)?;
    let order = in_line(read_header(&text[..n]), 1)?;
    read_steps(text, n + 1, order, labels, log)
}

// The refusal of a text, with the place in the line at fault. Each reader has this function: the refusals and `byte_of` are its format's own.
fn refuse(text: &[u8], fault: Fault<Refusal>) -> Answer
    ensures { result ≡ refused_with text.now (refusal_number fault.refusal) fault.line }
{
    let number = u16::from(fault.refusal);
    answer::refused_in(number, fault.line, byte_of(text, number, fault.line))
}

// The answer to a text.
#[tactic(auto, using(crate::proofs::TextLaws::placed_kit))]
fn read_placed(text: &[u8], labels: u16, log: &mut [u16]) -> Answer
    requires { (labels ≤ most_labels) × (log_length ≤ length log.old) }
    ensures value { result ≡ text_answer text.now (log_text labels text.now) }
    ensures log_after { log.new ≡ filled_by (log_text labels text.now) log.old }
{
    match read_text(text, labels, log) {
        Ok(count) => answer::accepted(count),
        Err(fault) => refuse(text, fault),
    }
}

// Reads a log under a label count, 1 to 16. Accepted, its numbers stand in front of the buffer, which has room for 7,170; refused, the
// buffer is as it was.
#[tactic(auto, using(answer::proofs::FaultSteps::fault_steps))]
pub fn read_log(text: &[u8], labels: u16, log: &mut [u16]) -> Answer
    ensures value { result ≡ log_answer text.now labels log.old }
    ensures log_after { log.new ≡ log_after text.now labels log.old }
{
    if log.len() < layout::LOG_LENGTH {
        return answer::refused(1, 0);
    }
    if !(1..=layout::MOST_LABELS).contains(&usize::from(labels)) {
        return answer::refused(5, 0);
    }
    read_placed(text, labels, log)
}
