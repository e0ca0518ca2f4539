// Is a buffer one that an accepted log text gives under a label count? The judge asks before it reads a log buffer.
// The length comes first, then each place in turn; no number of the buffer is used as a place before it has been looked at.
// That a step is below the most is asked by each: it is a bound of the caller's loop.
#![tactic(auto)]

ghost use Rattle.std.specs.Prelude.{◌≡◌, ◌<◌};
ghost use Rattle.sets.specs.Sets.{all_below};
ghost use Rattle.layout.specs.Layout.{most_steps};
ghost use Rattle.log_buffer.specs.Valid.{values_ok, is_log};

use log_buffer::LogNumbers;

// The label set and the board of step v; zeros past the last step.
fn values_ok(log: &LogNumbers, labels: u16, v: usize) -> bool
    requires { v < most_steps }
    ensures { result ≡ values_ok labels log.now v }
{
    let set = log.label_set(v);
    let board = log.board(v);
    if v >= log.steps() {
        set == 0 && board == 0
    } else if v == 0 {
        set == 0 && board <= layout::MOST_BOARD
    } else {
        sets::within(set, labels) && board <= layout::MOST_BOARD
    }
}

// The label sets and the boards of all steps.
fn all_values(log: &LogNumbers, labels: u16) -> bool
    ensures { result ≡ all_below most_steps (values_ok labels log.now) }
{
    (0..layout::MOST_STEPS).all(|v| values_ok(log, labels, v))
}

// The judge's test of a log buffer, under the pattern's label count.
#[tactic(auto, unfolding(log_buffer::specs::Valid::is_log))]
pub fn is_log(buffer: &[u16], labels: u16) -> bool
    ensures { result ≡ is_log labels buffer.now }
{
    let Some(log) = LogNumbers::new(buffer) else {
        return false;
    };
    (1..=layout::MOST_STEPS).contains(&log.steps()) && all_values(&log, labels) && log.graph_ok()
}
