// What a line below the header says, judged by the line before it.
#![tactic(auto)]

ghost use Rattle.std.specs.Prelude.{◌≡◌, not};
ghost use Rattle.pattern_order.specs.StateLine.{follows_last, breaks_turns, disordered, misruled};
ghost use Rattle.pattern_order.specs.inner.Answers.{line_said, order_judged, order_said, row_for, rows_at};

use pattern_line::refusals::Refusal;

// A line's values but for its next sets: bead, rule (its number, 0 where the field names none), state, final: plain numbers, the next sets
// stand beside them.
#[derive(Clone, Copy)]
pub struct LineValues {
    pub bead: u16,
    pub rule: u16,
    pub state: u16,
    pub accepting: u16,
}

// Is it the next state of the bead, or state 0 of the next bead?
#[tactic(auto, using(crate::proofs::OrderLaws::follows_kit))]
fn follows(v: LineValues, last: Option<LineValues>) -> bool
    ensures { result ≡ follows_last (rows_at last) (row_for v) }
{
    match last {
        None => v.bead == 1 && v.state == 0,
        Some(last) => {
            if v.bead == last.bead {
                u32::from(v.state) == u32::from(last.state) + 1
            } else {
                u32::from(v.bead) == u32::from(last.bead) + 1 && v.state == 0
            }
        }
    }
}

// Is the rule changed inside a bead, or the same as that of the bead before?
#[tactic(auto, using(crate::proofs::OrderLaws::turns_kit))]
fn breaks_turns(v: LineValues, last: Option<LineValues>) -> bool
    ensures { result ≡ breaks_turns (rows_at last) (row_for v) }
{
    match last {
        None => false,
        Some(last) => {
            if v.bead == last.bead {
                v.rule != last.rule
            } else {
                v.rule == last.rule
            }
        }
    }
}

// Are the values in their order and within their limits?
fn is_ordered(v: LineValues, last: Option<LineValues>) -> bool
    ensures { result ≡ not (disordered (rows_at last) (row_for v)) }
{
    follows(v, last)
        && usize::from(v.bead) <= layout::MOST_BEADS
        && usize::from(v.state) < layout::MOST_STATES
        && v.accepting <= 1
}

// Is there a rule, and is it its turn?
#[tactic(auto, using(crate::proofs::OrderLaws::ruled_kit))]
fn is_ruled(v: LineValues, last: Option<LineValues>) -> bool
    ensures { result ≡ not (misruled (rows_at last) (row_for v)) }
{
    rules::is_rule(v.rule) && !breaks_turns(v, last)
}

// The values in their order, or the refusal.
#[tactic(auto, using(crate::proofs::OrderLaws::values_kit))]
pub fn judge_values(v: LineValues, last: Option<LineValues>) -> Result<LineValues, Refusal>
    ensures value { result ≡ order_judged (rows_at last) v }
    ensures said { line_said result ≡ order_said (rows_at last) (row_for v) }
{
    if !is_ordered(v, last) {
        return Err(Refusal::Order);
    }
    if !is_ruled(v, last) {
        return Err(Refusal::Rule);
    }
    Ok(v)
}
