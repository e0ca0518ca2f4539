// The readers and the judge on the texts of `cases.txt`, a line a case; at the end, how many cases got each answer.
//
// A line of the file has its columns parted by tabs: what is tried; the pattern and the log, each as a script (`script::expand`) or
// `=` for the listing of document 01 (`pattern.txt`, `log.txt`); and settings (crate `settings`): `P`, `L`, `R`, `W` with a number: how
// many numbers of the pattern, log, result and work buffer the judge is lent; `c` with a number: the label count that the log reader is
// handed in place of the pattern's; `p` and `l`: a place of the pattern or log buffer that is set after reading. A case prints whose
// answer it is and what the calls left. The buffers have six numbers more than the format uses, and each number is a mark before the
// first call.
#![tactic(auto)]

use answer::Answer;
use outcome::{is_marked, is_marked_from, marked, print_claim, sum_of_sums};
use settings::Settings;
use std::io;
use std::rt::Files;
use trial::column;

mod result_rows;

fn main(rt: HostRuntime) -> io::Result<()> {
    outcome::try_cases(&rt, "cases.txt", |line| try_case(&rt, line))
}

// Reads both texts, damages what they gave, and judges it, up to the first refusal.
fn try_case(rt: &(impl Files + Print + AllocGlobal), line: &str) -> io::Result<u16> {
    let settings = Settings::new(column(line, 3));
    print!(rt; "{}: ", column(line, 0))?;

    let text = script::load(rt, column(line, 1), "pattern.txt", 17000)?;
    let mut pattern = marked(rt.alloc(), 2080)?;
    let answer = pattern::read_pattern(&text, &mut pattern);
    if !answer.is_accepted() {
        return print_refused(rt, "pattern reader", answer, &pattern);
    }

    let text = script::load(rt, column(line, 2), "log.txt", 66000)?;
    let labels = settings.value('c').unwrap_or(trial::get(&pattern, 0));
    let mut log = marked(rt.alloc(), 7176)?;
    let answer = log_reader::read_log(&text, labels, &mut log);
    if !answer.is_accepted() {
        return print_refused(rt, "log reader", answer, &log);
    }

    settings.damage('p', &mut pattern);
    settings.damage('l', &mut log);
    try_judge(rt, settings, &pattern, &log)
}

// The refusal of a reader whose buffer was all marks.
fn print_refused(rt: &impl Print, who: &str, a: Answer, buffer: &[u16]) -> io::Result<u16> {
    outcome::print_answer(rt, who, a)?;
    outcome::print_buffer(rt, a.number, buffer)?;
    println!(rt)?;
    Ok(a.number)
}

// Judges, and compares sums of the two buffers that the judge only reads. Lends as many numbers of each buffer as the settings say.
fn try_judge(
    rt: &(impl Print + AllocGlobal),
    settings: Settings<'_>,
    pattern: &[u16],
    log: &[u16],
) -> io::Result<u16> {
    let (pattern_sum, log_sum) = (sum_of_sums(pattern), sum_of_sums(log));
    let mut result = marked(rt.alloc(), 10246)?;
    let mut work = marked(rt.alloc(), 16390)?;
    let result_lent = settings.at_most('R', result.len());
    let work_lent = settings.at_most('W', work.len());
    let answer = judging::judge(
        settings.lent('P', pattern),
        settings.lent('L', log),
        &mut result[..result_lent],
        &mut work[..work_lent],
    );
    outcome::print_answer(rt, "judge", answer)?;
    if !answer.is_accepted() {
        print_claim(rt, "; result kept", is_marked(&result))?;
        print_claim(rt, ", work kept", is_marked(&work))?;
    } else {
        result_rows::print_rows(rt, trial::get(log, 0), &result)?;
        let used = trial::front(&work, 16384);
        print_claim(rt, ", work 0", used.iter().all(|n| *n == 0))?;
        print_claim(rt, ", guard kept", is_marked_from(&work, 16384))?;
    }
    print_claim(rt, ", pattern kept", sum_of_sums(pattern) == pattern_sum)?;
    print_claim(rt, ", log kept", sum_of_sums(log) == log_sum)?;
    println!(rt)?;
    Ok(answer.number)
}
