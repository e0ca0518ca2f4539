// The readers, the judge and the writers as C calls them: an answer is one number. `runin_c` exports them.
#![tactic(auto)]

ghost use Rattle.std.specs.Prelude.{◌≡◌};
ghost use Rattle.answer.specs.Answers.{code_of};
ghost use Rattle.pattern.specs.Answer.{pattern_answer, pattern_after};
ghost use Rattle.log_reader.specs.Answer.{log_answer, log_after};
ghost use Rattle.judging.specs.Judge.{judge_answer, result_after, work_after};
ghost use Rattle.pattern_writer.specs.Writer.{write_answer as write_pattern_answer, text_after as pattern_text_after};
ghost use Rattle.log_writer.specs.Writer.{write_answer as write_log_answer, text_after as log_text_after};

// The pattern reader as C calls it.
pub fn runin_read_pattern(text: &[u8], pattern: &mut [u16]) -> u64
    ensures value { result ≡ code_of (pattern_answer text.now pattern.old) }
    ensures pattern_after { pattern.new ≡ pattern_after text.now pattern.old }
{
    u64::from(pattern::read_pattern(text, pattern))
}

// The log reader as C calls it.
pub fn runin_read_log(text: &[u8], labels: u16, log: &mut [u16]) -> u64
    ensures value { result ≡ code_of (log_answer text.now labels log.old) }
    ensures log_after { log.new ≡ log_after text.now labels log.old }
{
    u64::from(log_reader::read_log(text, labels, log))
}

// The judge as C calls it.
pub fn runin_judge(pattern: &[u16], log: &[u16], res: &mut [u16], work: &mut [u16]) -> u64
    ensures value { result ≡ code_of (judge_answer pattern.now log.now res.old work.old) }
    ensures res_after { res.new ≡ result_after pattern.now log.now res.old work.old }
    ensures work_after { work.new ≡ work_after pattern.now log.now res.old work.old }
{
    u64::from(judging::judge(pattern, log, res, work))
}

// The pattern writer as C calls it.
pub fn runin_write_pattern(pattern: &[u16], header: &[u8], text: &mut [u8]) -> u64
    ensures value { result ≡ code_of (write_pattern_answer pattern.now header.now text.old) }
    ensures text_after { text.new ≡ pattern_text_after pattern.now header.now text.old }
{
    u64::from(pattern_writer::write_pattern(pattern, header, text))
}

// The log writer as C calls it.
pub fn runin_write_log(log: &[u16], labels: u16, text: &mut [u8]) -> u64
    ensures value { result ≡ code_of (write_log_answer log.now labels text.old) }
    ensures text_after { text.new ≡ log_text_after log.now labels text.old }
{
    u64::from(log_writer::write_log(log, labels, text))
}
