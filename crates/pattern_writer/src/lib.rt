// The pattern writer: from the numbers of a pattern buffer, under a header, to the text that gives them.
#![tactic(auto)]

ghost use Rattle.std.specs.Prelude.{◌<◌, ◌≡◌, true, length};
ghost use Rattle.writing.specs.Put.{Put};
ghost use Rattle.pattern_buffer.specs.Meaning.{labels_in};
ghost use Rattle.pattern_writer.specs.Writer.{names, header_fits, written, room_faults, test_faults, write_answer, text_after};
ghost use Rattle.pattern_writer.specs.inner.Tested.{answer_under, text_under_faults};

use answer::Answer;
use pattern_byte::header_byte;
use pattern_header::read_header;
use pattern_layout::TestedPattern;
use pattern_line::refusals::Refusal;
use text::lines::read_line;
use writing::Output;

// Is the line a header that names so many labels?
#[tactic(auto, using(crate::proofs::HeaderLaws::name_kit))]
fn names_labels(labels: u16, line: &[u8]) -> bool
    ensures { result ≡ names labels line.now }
{
    read_header(line).is_ok_and(|count| count == labels)
}

// Is the header text one such line, whole and with nothing behind it?
#[tactic(auto, using(crate::proofs::HeaderLaws::header_kit))]
fn header_fits(labels: u16, header: &[u8]) -> bool
    ensures { result ≡ header_fits labels header.now }
{
    let Ok(n) = read_line(header, layout::MOST_LINE) else {
        return false;
    };
    header.len() <= n + 1 && names_labels(labels, &header[..n])
}

// The output, from the front of a buffer, as far as there are places: the header text as it is, then the rows. Answers how long it is.
#[tactic(auto, using(crate::proofs::WriteLaws::output_kit))]
fn put_pattern(out: &mut [u8], pattern: TestedPattern, header: &[u8]) -> usize
    ensures { Put (written header.now pattern.entry.numbers.now) 0 out.old result out.new }
{
    let mut output = Output::new(out);
    output.put_bytes(header);
    pattern.put_beads(&mut output);
    output.at
}

// Test 8, and the output, of a pattern and a header that passed their tests.
#[tactic(auto, using(crate::proofs::WriteLaws::text_kit))]
fn write_text(pattern: TestedPattern, header: &[u8], text: &mut [u8]) -> Answer
    requires { header_fits (labels_in pattern.numbers.now) header.now ≡ true }
    ensures value { result ≡ answer_under (room_faults pattern.entry.numbers.now header.now text.old) pattern.entry.numbers.now header.now }
    ensures text_after { text.new ≡ text_under_faults (room_faults pattern.entry.numbers.now header.now text.old) pattern.entry.numbers.now header.now text.old }
{
    // As in `log_writer`: the length is proved to fit.
    match writing::lay(text, |room| put_pattern(room, pattern, header)) {
        None => answer::refused(8, 0),
        Some(n) => answer::accepted(n as u16),
    }
}

// Tests 6 and 12, and the rest, on a pattern buffer of its documented length.
#[tactic(auto, using(answer::proofs::FaultSteps::fault_steps))]
fn write_fit(pattern: &[u16], header: &[u8], text: &mut [u8]) -> Answer
    requires { 0 < length pattern.now }
    ensures value { result ≡ answer_under (test_faults pattern.now header.now text.old) pattern.now header.now }
    ensures text_after { text.new ≡ text_under_faults (test_faults pattern.now header.now text.old) pattern.now header.now text.old }
{
    if !pattern_test::is_pattern(pattern) {
        return answer::refused(6, 0);
    }
    if !header_fits(pattern[0], header) {
        return answer::refused_in(u16::from(Refusal::Header), 1, header_byte(header));
    }
    write_text(TestedPattern { numbers: pattern }, header, text)
}

// Writes a pattern under a header text. Accepted, the output stands in front of the text buffer, and its length is the count; refused,
// the text buffer is as it was.
#[tactic(auto, using(answer::proofs::FaultSteps::fault_steps))]
pub fn write_pattern(pattern: &[u16], header: &[u8], text: &mut [u8]) -> Answer
    ensures value { result ≡ write_answer pattern.now header.now text.old }
    ensures text_after { text.new ≡ text_after pattern.now header.now text.old }
{
    if pattern.len() < layout::PATTERN_LENGTH {
        return answer::refused(2, 0);
    }
    write_fit(&pattern[..layout::PATTERN_LENGTH], header, text)
}
