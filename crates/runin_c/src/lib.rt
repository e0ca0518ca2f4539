// The five calls of `runin`, exported to C under their names, and nothing else.
#![tactic(auto)]

ghost use Rattle.std.specs.Prelude.{◌≡◌};
ghost use Rattle.answer.specs.Answers.{code_of};
ghost use Rattle.pattern.specs.Answer.{pattern_answer, pattern_after};
ghost use Rattle.log_reader.specs.Answer.{log_answer, log_after};
ghost use Rattle.judging.specs.Judge.{judge_answer, result_after, work_after};
ghost use Rattle.pattern_writer.specs.Writer.{write_answer as write_pattern_answer, text_after as pattern_text_after};
ghost use Rattle.log_writer.specs.Writer.{write_answer as write_log_answer, text_after as log_text_after};

// The pattern reader, exported.
#[unsafe(no_mangle)]
pub extern "C" fn runin_read_pattern(text: &[u8], pattern: &mut [u16]) -> u64
    ensures value { result ≡ code_of (pattern_answer text.now pattern.old) }
    ensures pattern_after { pattern.new ≡ pattern_after text.now pattern.old }
{
    runin::runin_read_pattern(text, pattern)
}

// The log reader, exported.
#[unsafe(no_mangle)]
pub extern "C" fn runin_read_log(text: &[u8], labels: u16, log: &mut [u16]) -> u64
    ensures value { result ≡ code_of (log_answer text.now labels log.old) }
    ensures log_after { log.new ≡ log_after text.now labels log.old }
{
    runin::runin_read_log(text, labels, log)
}

// The judge, exported.
#[unsafe(no_mangle)]
pub extern "C" fn runin_judge(
    pattern: &[u16],
    log: &[u16],
    res: &mut [u16],
    work: &mut [u16],
) -> u64
    ensures value { result ≡ code_of (judge_answer pattern.now log.now res.old work.old) }
    ensures res_after { res.new ≡ result_after pattern.now log.now res.old work.old }
    ensures work_after { work.new ≡ work_after pattern.now log.now res.old work.old }
{
    runin::runin_judge(pattern, log, res, work)
}

// The pattern writer, exported.
#[unsafe(no_mangle)]
pub extern "C" fn runin_write_pattern(pattern: &[u16], header: &[u8], text: &mut [u8]) -> u64
    ensures value { result ≡ code_of (write_pattern_answer pattern.now header.now text.old) }
    ensures text_after { text.new ≡ pattern_text_after pattern.now header.now text.old }
{
    runin::runin_write_pattern(pattern, header, text)
}

// The log writer, exported.
#[unsafe(no_mangle)]
pub extern "C" fn runin_write_log(log: &[u16], labels: u16, text: &mut [u8]) -> u64
    ensures value { result ≡ code_of (write_log_answer log.now labels text.old) }
    ensures text_after { text.new ≡ log_text_after log.now labels text.old }
{
    runin::runin_write_log(log, labels, text)
}
