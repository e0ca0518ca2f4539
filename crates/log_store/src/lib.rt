// The log buffer, filled step by step.
#![tactic(auto)]

ghost use Rattle.std.specs.Prelude.{◌≡◌, ◌+◌, ◌≤◌, length};
ghost use Rattle.log_step.specs.Limits.{InLimits};
ghost use Rattle.log_step.specs.Answers.{step_with};
ghost use Rattle.log_store.specs.inner.Stores.{values_stored, links_stored, StepStored, LineAdded};
ghost use Rattle.layout.specs.Layout.{most_links};
ghost use Rattle.text.specs.Split.{split};
ghost use Rattle.log_line.specs.Answers.{order_of};

use log_line::header::ColumnOrder;
use log_line::preds::Links;
use log_line::refusals::Refusal;
use log_step::{Position, StepValues, read_step};

// Stores the step count, and at this step, which has so many links, its label set, its board and where the links of the next step begin.
#[tactic(auto, using(crate::proofs::BufferLaws::values_kit))]
fn store_values(
    buffer: &mut [u16; layout::LOG_LENGTH],
    position: Position,
    values: StepValues,
    links: usize,
)
    requires { InLimits links position.step position.links }
    ensures { buffer.new ≡ values_stored buffer.old position.step values.labels values.board (position.links + links) }
{
    let next = position.after(links);
    let i = usize::from(position.step);
    buffer[0] = next.step;
    buffer[layout::LABEL_SETS + i] = values.labels;
    buffer[layout::BOARDS + i] = values.board;
    buffer[layout::BEGINS + i + 1] = next.links;
}

// Stores links after so many others.
#[tactic(auto, unfolding(crate::specs::inner::Stores::links_stored))]
fn store_links(buffer: &mut [u16; layout::LOG_LENGTH], before: u16, links: &[u16])
    requires { before + length links.now ≤ most_links }
    ensures { buffer.new ≡ links_stored buffer.old before links.now }
{
    let first = layout::LINKS + usize::from(before);
    buffer[first..first + links.len()].copy_from_slice(links);
}

// Adds a step with these values and links to a buffer of the steps before it.
#[tactic(auto, using(crate::proofs::BufferLaws::store_kit))]
fn store_step(
    buffer: &mut [u16; layout::LOG_LENGTH],
    position: Position,
    values: StepValues,
    links: &Links,
)
    requires { InLimits links.now.count position.step position.links }
    ensures { StepStored buffer.old position.step position.links (step_with (values, links.now)) buffer.new }
{
    store_values(buffer, position, values, links.count);
    store_links(buffer, position.links, links.as_slice());
}

// Reads the line at this position, and adds its step to a buffer of the steps before it.
#[tactic(auto, using(crate::proofs::LineLaws::line_kit))]
pub fn add_line(
    line: &[u8],
    order: ColumnOrder,
    position: Position,
    buffer: &mut [u16; layout::LOG_LENGTH],
) -> Result<(StepValues, Links), Refusal>
    ensures { LineAdded position.labels position.step position.links (order_of order) (split 32 line.now) buffer.old result buffer.new }
{
    let step = read_step(line, order, position)?;
    store_step(buffer, position, step.0, &step.1);
    Ok(step)
}
