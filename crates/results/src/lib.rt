// The result of judging buffers that passed their tests: both phases into arrays, the rows and the count out of them.
#![tactic(auto)]

ghost use Rattle.std.specs.Prelude.{◌≡◌, ◌++◌, ◌≤◌, length, drop, replicate};
ghost use Rattle.layout.specs.Layout.{result_length, work_length};
ghost use Rattle.log_buffer.specs.Meaning.{log_of, steps_in};
ghost use Rattle.pattern_buffer.specs.Meaning.{pattern_of};
ghost use Rattle.prefix_phase.specs.Marked.{Tested, Unmarked, PrefixesMarked};
ghost use Rattle.walk_places.specs.Walked.{WalkedBack};
ghost use Rattle.results.specs.inner.Arrays.{result_from};
ghost use Rattle.results.specs.Result.{whole_up_to, rows_of};

use log_links::Log;
use prefix_phase::Case;
use rows::Found;
use serving::Course;

// Both phases: the sets of prefixes, and the pivots. What they go by is made before them: the hopeful states of each bead, and the last link of
// each step.
#[tactic(auto, using(prefix_phase::proofs::MarkLaws::labels_long))]
fn fill_arrays(
    pattern: &[u16],
    log: &[u16],
    labels: &[u16],
    prefixes: &mut [u16; layout::MOST_STEPS],
    pivots: &mut [u16; layout::PIVOT_PLACES],
    work: &mut [u16],
)
    requires in_bounds { work_length ≤ length work.old }
    requires tested { Tested pattern.now log.now labels.now }
    requires unmarked { Unmarked prefixes.old }
    ensures marks { PrefixesMarked (log_of log.now labels.now) (pattern_of pattern.now) (steps_in log.now) prefixes.new }
    ensures walked_back { WalkedBack (log_of log.now labels.now) (pattern_of pattern.now) (steps_in log.now) pivots.new }
{
    let mut hopes = [0u16; layout::MOST_BEADS];
    let mut last = [0u16; layout::MOST_STEPS];
    let log = Log::new(log, labels);
    hope::fill_hopes(pattern, &mut hopes);
    log_links::last_links(log, &mut last);
    let course = Course {
        pattern,
        log,
        hopes: &hopes,
        last: &last,
    };
    let case = Case { course };
    case.mark_prefixes(prefixes, work);
    walk_phase::walk_back(&case, prefixes, pivots, work);
}

// The rows of all steps, and zeros in the unused places.
fn write_result(found: &Found, res: &mut [u16])
    requires { result_length ≤ length res.old }
    ensures { res.new ≡ result_from found.now.beads found.now.prefixes.now found.now.pivots.now found.now.steps res.old }
{
    found.write_rows(res);
    res[layout::ROW_LENGTH * found.steps..layout::RESULT_LENGTH].fill(0);
}

// Judges buffers that passed their tests, the log's label sets lent beside it, and leaves zeros in the work buffer.
#[tactic(auto, using(crate::proofs::JudgeLaws::tested_kit))]
pub fn judge_tested(
    pattern: &[u16],
    log: &[u16],
    labels: &[u16],
    res: &mut [u16],
    work: &mut [u16],
) -> u16
    requires tested { Tested pattern.now log.now labels.now }
    requires in_bounds { (result_length ≤ length res.old) × (length work.old ≡ work_length) }
    ensures value { result ≡ whole_up_to (log_of log.now labels.now) (pattern_of pattern.now) (log_of log.now labels.now).size }
    ensures res_after { res.new ≡ rows_of (log_of log.now labels.now) (pattern_of pattern.now) ++ drop result_length res.old }
    ensures work_after { work.new ≡ replicate (length work.old) 0 }
{
    let mut prefixes = [0u16; layout::MOST_STEPS];
    let mut pivots = [0u16; layout::PIVOT_PLACES];
    fill_arrays(pattern, log, labels, &mut prefixes, &mut pivots, work);
    let found = Found {
        beads: pattern[1],
        steps: usize::from(log[0]),
        prefixes: &prefixes,
        pivots: &pivots,
    };
    write_result(&found, res);
    work.fill(0);
    rows::count_whole(found.beads, found.steps, &prefixes)
}
