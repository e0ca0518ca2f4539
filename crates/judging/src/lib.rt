// The judge: fills one row for each step of a log, by a pattern.
#![tactic(auto)]

ghost use Rattle.std.specs.Prelude.{◌≡◌, ◌≤◌, ◌<◌, length};
ghost use Rattle.layout.specs.Layout.{log_length, result_length, work_length};
ghost use Rattle.judging.specs.Judge.{judge_answer, result_after, work_after};
ghost use Rattle.judging.specs.inner.Fit.{fit_answer, fit_result, fit_work};

use answer::Answer;

// Tests 6 and 7, and the judging, on buffers of their documented lengths.
#[tactic(auto, using(crate::proofs::FitLaws::fit_kit))]
fn judge_fit(pattern: &[u16], log: &[u16], res: &mut [u16], work: &mut [u16]) -> Answer
    requires { (0 < length pattern.now) × (log_length ≤ length log.now) × (result_length ≤ length res.old) × (length work.old ≡ work_length) }
    ensures value { result ≡ fit_answer pattern.now log.now }
    ensures res_after { res.new ≡ fit_result pattern.now log.now res.old }
    ensures work_after { work.new ≡ fit_work pattern.now log.now work.old }
{
    if !pattern_test::is_pattern(pattern) {
        return answer::refused(6, 0);
    }
    if !log_test::is_log(log, pattern[0]) {
        return answer::refused(7, 0);
    }
    let labels = &log[layout::LABEL_SETS..layout::BOARDS];
    answer::accepted(results::judge_tested(pattern, log, labels, res, work))
}

// Judges a log by a pattern: fills one row for each step.
#[tactic(auto, using(answer::proofs::FaultSteps::fault_steps))]
pub fn judge(pattern: &[u16], log: &[u16], res: &mut [u16], work: &mut [u16]) -> Answer
    ensures value { result ≡ judge_answer pattern.now log.now res.old work.old }
    ensures res_after { res.new ≡ result_after pattern.now log.now res.old work.old }
    ensures work_after { work.new ≡ work_after pattern.now log.now res.old work.old }
{
    if log.len() < layout::LOG_LENGTH {
        return answer::refused(1, 0);
    }
    if pattern.len() < layout::PATTERN_LENGTH {
        return answer::refused(2, 0);
    }
    if res.len() < layout::RESULT_LENGTH {
        return answer::refused(3, 0);
    }
    if work.len() < layout::WORK_LENGTH {
        return answer::refused(4, 0);
    }
    judge_fit(
        &pattern[..layout::PATTERN_LENGTH],
        &log[..layout::LOG_LENGTH],
        res,
        &mut work[..layout::WORK_LENGTH],
    )
}
