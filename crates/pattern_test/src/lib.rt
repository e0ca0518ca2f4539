// Is a buffer one that an accepted pattern text gives? The host's test for refusal 6 (document 01).
// The definition looks at each place by itself, and so does this code; the theorem `pattern_buffers` says what it means.
// That a place is one of eight beads is asked by each: it is a bound of the caller's loop.
#![tactic(auto)]

ghost use Rattle.std.specs.Prelude.{◌≡◌, ◌<◌};
ghost use Rattle.layout.specs.Layout.{most_beads};
ghost use Rattle.pattern_buffer.specs.Valid.{turn_ok, bead_ok, beads_ok, is_pattern};

use pattern_buffer::PatternNumbers;

// Is the rule of the bead at place j another than that of the bead before?
fn turn_ok(pattern: &PatternNumbers, j: usize) -> bool
    requires { j < most_beads }
    ensures { result ≡ turn_ok pattern.now j }
{
    j == 0 || pattern.rule(j) != pattern.rule(j - 1)
}

// The bead at place j: right if it is there, all zeros if it is not.
fn bead_ok(pattern: &PatternNumbers, j: usize) -> bool
    requires { j < most_beads }
    ensures { result ≡ bead_ok pattern.now j }
{
    let rule = pattern.rule(j);
    let states = pattern.states(j);
    let accepting = pattern.accepting(j);
    if j < pattern.beads() {
        rules::is_rule(rule)
            && turn_ok(pattern, j)
            && (1..=layout::MOST_STATES).contains(&usize::from(states))
            && sets::within(accepting, states)
    } else {
        rule == 0 && states == 0 && accepting == 0
    }
}

// All beads.
fn beads_ok(pattern: &PatternNumbers) -> bool
    ensures { result ≡ beads_ok pattern.now }
{
    (0..layout::MOST_BEADS).all(|j| bead_ok(pattern, j))
}

// Is the buffer what some accepted pattern text gives? It asks nothing of its caller: the length comes first.
#[tactic(auto, unfolding(pattern_buffer::specs::Valid::is_pattern))]
pub fn is_pattern(buffer: &[u16]) -> bool
    ensures { result ≡ is_pattern buffer.now }
{
    let Some(pattern) = PatternNumbers::new(buffer) else {
        return false;
    };
    (1..=layout::MOST_LABELS).contains(&pattern.labels())
        && (1..=layout::MOST_BEADS).contains(&pattern.beads())
        && beads_ok(&pattern)
        && pattern.nexts_ok()
}
