// The lines below the header, one after the other, into a buffer of this function's own: a refusal changes nothing.
#![tactic(auto)]

ghost use Rattle.std.specs.Prelude.{◌≡◌, ◌≤◌, length, drop};
ghost use Rattle.layout.specs.Layout.{most_labels, log_length};
ghost use Rattle.log_line.specs.Answers.{order_of};
ghost use Rattle.log_walk.specs.Filled.{answered, answer_of, filled_by};
ghost use Rattle.log_walk.specs.inner.Reading.{steps_read};

use log_line::header::ColumnOrder;
use log_line::refusals::Refusal;
use log_step::Position;
use log_store::add_line;
use text::faults::{Fault, in_line};
use text::lines::whole_line;

// How many steps a text has whose header ends before `start`. The place goes on by a line's length, so no `for` counts it.
// `pattern_walk::read_rows` goes alike: one loop for both would be handed what judges a line and what it leaves, and be longer than the two.
#[tactic(auto, using(crate::proofs::ReadLaws::reading_kit))]
pub fn read_steps(
    text: &[u8],
    start: usize,
    order: ColumnOrder,
    labels: u16,
    log: &mut [u16],
) -> Result<u16, Fault<Refusal>>
    requires { (start ≤ length text.now) × (labels ≤ most_labels) × (log_length ≤ length log.old) }
    ensures value { answered result ≡ answer_of (steps_read labels (order_of order) (drop start text.now)) }
    ensures log_after { log.new ≡ filled_by (steps_read labels (order_of order) (drop start text.now)) log.old }
{
    let mut buffer = [0u16; layout::LOG_LENGTH];
    let mut at = start;
    let mut position = Position::start(labels);
    while at < text.len() {
        let line = position.step + 2;
        let n = in_line(
            whole_line(&text[at..], layout::MOST_LINE, Refusal::Malformed),
            line,
        )?;
        let end = at + n;
        let added = add_line(&text[at..end], order, position, &mut buffer);
        let (_, links) = in_line(added, line)?;
        position = position.after(links.count);
        at = end + 1;
    }
    if position.step == 0 {
        return Err(Fault {
            refusal: Refusal::Limit,
            line: 1,
        });
    }
    log[..layout::LOG_LENGTH].copy_from_slice(&buffer);
    Ok(position.step)
}
