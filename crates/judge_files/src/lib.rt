// The body of the program `judge`: two files in, and all that is to be printed out, as bytes.
#![tactic(auto)]

ghost use Rattle.std.specs.Prelude.{◌≡◌};
ghost use Rattle.pattern_buffer.specs.Meaning.{beads_in};
ghost use Rattle.log_buffer.specs.Meaning.{steps_in};
ghost use Rattle.report.specs.Report.{output_text};
ghost use Rattle.judge_files.specs.Files.{PatternRead, LogRead, Run, Ran, TextRooms};
ghost use Rattle.judge_files.specs.Output.{AtFront};

use answer::Answer;
use loading::load;
use std::rt::Files;

// A text buffer is a byte longer than the longest text, so that a text that is too long is seen.
pub const PATTERN_TEXT_ROOM: usize = layout::MOST_PATTERN_TEXT + 1;

pub const LOG_TEXT_ROOM: usize = layout::MOST_LOG_TEXT + 1;

// More than all that can be printed.
pub const OUTPUT_ROOM: usize = 65536;

// The names of the two files.
#[derive(Clone, Copy)]
pub struct Names<'a> {
    pub pattern: &'a [u8],
    pub log: &'a [u8],
}

// All that the program reads into and writes to.
#[derive(Drop)]
pub struct Rooms {
    pub pattern_text: [u8; PATTERN_TEXT_ROOM],
    pub log_text: [u8; LOG_TEXT_ROOM],
    pub pattern: [u16; layout::PATTERN_LENGTH],
    pub log: [u16; layout::LOG_LENGTH],
    pub result: [u16; layout::RESULT_LENGTH],
    pub work: [u16; layout::WORK_LENGTH],
    pub output: [u8; OUTPUT_ROOM],
}

// The answer, and how many bytes of the output there are to print. A slice of the output was tried in place of the number: lent on
// in the answer it leaves no `rooms.new`, so that no clause could say what the rooms hold.
#[derive(Clone, Copy)]
pub struct Printed {
    pub answer: Answer,
    pub length: usize,
}

// Judges the log in one file by the pattern in another, and lays out the rows, or the
// line of the first refusal, at the front of the output. A pattern that is refused means that the
// log is not opened. The rooms are lent one by one: who has them in several places need not copy them.
pub fn run(
    rt: &impl Files,
    names: Names,
    pattern_text: &mut [u8; PATTERN_TEXT_ROOM],
    log_text: &mut [u8; LOG_TEXT_ROOM],
    pattern: &mut [u16; layout::PATTERN_LENGTH],
    log: &mut [u16; layout::LOG_LENGTH],
    res: &mut [u16; layout::RESULT_LENGTH],
    work: &mut [u16; layout::WORK_LENGTH],
    output: &mut [u8; OUTPUT_ROOM],
) -> Printed
    ensures text_rooms { TextRooms pattern_text.new log_text.new }
    ensures run { Run pattern_text.new log_text.new pattern.old log.old res.old work.old result.answer pattern.new log.new res.new work.new }
    ensures at_front { AtFront (output_text result.answer (beads_in pattern.new) (steps_in log.new) res.new) output.old result.length output.new }
{
    let answer = judge_texts(rt, names, pattern_text, log_text, pattern, log, res, work);
    let length = if answer.is_accepted() {
        report::put_rows(output, pattern[1], log[0], res)
    } else {
        report::put_refusal(output, answer)
    };
    Printed { answer, length }
}

// The same in rooms that stand together, as the program has them.
pub fn run_rooms(rt: &impl Files, names: Names, rooms: &mut Rooms) -> Printed
    ensures text_rooms { TextRooms rooms.new.pattern_text rooms.new.log_text }
    ensures run { Ran rooms.old result.answer rooms.new }
    ensures at_front { AtFront (output_text result.answer (beads_in rooms.new.pattern) (steps_in rooms.new.log) rooms.new.result) rooms.old.output result.length rooms.new.output }
{
    run(
        rt,
        names,
        &mut rooms.pattern_text,
        &mut rooms.log_text,
        &mut rooms.pattern,
        &mut rooms.log,
        &mut rooms.result,
        &mut rooms.work,
        &mut rooms.output,
    )
}

fn judge_texts(
    rt: &impl Files,
    names: Names,
    pattern_text: &mut [u8; PATTERN_TEXT_ROOM],
    log_text: &mut [u8; LOG_TEXT_ROOM],
    pattern: &mut [u16; layout::PATTERN_LENGTH],
    log: &mut [u16; layout::LOG_LENGTH],
    res: &mut [u16; layout::RESULT_LENGTH],
    work: &mut [u16; layout::WORK_LENGTH],
) -> Answer
    ensures text_rooms { TextRooms pattern_text.new log_text.new }
    ensures run { Run pattern_text.new log_text.new pattern.old log.old res.old work.old result pattern.new log.new res.new work.new }
{
    let pattern_read = read_pattern_file(rt, names.pattern, pattern_text, pattern);
    if !pattern_read.is_accepted() {
        return pattern_read;
    }
    let log_read = read_log_file(rt, names.log, log_text, pattern, log);
    if !log_read.is_accepted() {
        return log_read;
    }
    judging::judge(pattern, log, res, work)
}

fn read_pattern_file(rt: &impl Files, name: &[u8], text: &mut [u8], pattern: &mut [u16]) -> Answer
    ensures { PatternRead text.new pattern.old result pattern.new }
{
    let n = load(rt, name, text);
    pattern::read_pattern(&text[..n], pattern)
}

// Under the label count of a pattern.
fn read_log_file(
    rt: &impl Files,
    name: &[u8],
    text: &mut [u8],
    pattern: &[u16; layout::PATTERN_LENGTH],
    log: &mut [u16],
) -> Answer
    ensures { LogRead text.new pattern.now log.old result log.new }
{
    let n = load(rt, name, text);
    log_reader::read_log(&text[..n], pattern[0], log)
}
