// Writes a log buffer back as a text.
#![tactic(auto)]

ghost use Rattle.std.specs.Prelude.{◌≤◌, ◌≡◌};
ghost use Rattle.layout.specs.Layout.{most_labels};
ghost use Rattle.log_writer.specs.Writer.{write_answer, text_after, fit_answer, fit_after};

use answer::Answer;
use log_layout::{TestedLog, lay_log};

// Tests 7 and 8, and the text, for a log buffer of its documented length.
#[tactic(auto, using(crate::proofs::Fits::text_kit))]
fn write_fit(log: &[u16], labels: u16, text: &mut [u8]) -> Answer
    requires { labels ≤ most_labels }
    ensures value { result ≡ fit_answer log.now labels text.old }
    ensures text_after { text.new ≡ fit_after log.now labels text.old }
{
    if !log_test::is_log(log, labels) {
        return answer::refused(7, 0);
    }
    let tested = TestedLog { numbers: log };
    // The cast keeps the length: it is proved to fit. `u16::try_from` would ask for an answer to a length that cannot be.
    match writing::lay(text, |room| lay_log(room, tested)) {
        None => answer::refused(8, 0),
        Some(n) => answer::accepted(n as u16),
    }
}

// Writes a log buffer of 7,170 numbers, which passes its test under the label count, as a text. Accepted, the text stands in front of the
// text buffer and the answer counts its bytes; refused, the text buffer is as it was.
#[tactic(auto, using(answer::proofs::FaultSteps::fault_steps))]
pub fn write_log(log: &[u16], labels: u16, text: &mut [u8]) -> Answer
    ensures value { result ≡ write_answer log.now labels text.old }
    ensures text_after { text.new ≡ text_after log.now labels text.old }
{
    if log.len() < layout::LOG_LENGTH {
        return answer::refused(1, 0);
    }
    if !(1..=layout::MOST_LABELS).contains(&usize::from(labels)) {
        return answer::refused(5, 0);
    }
    write_fit(&log[..layout::LOG_LENGTH], labels, text)
}
