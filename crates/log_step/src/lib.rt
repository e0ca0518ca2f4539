// One line below the header: its values, or the first of its refusals.
#![tactic(auto)]

mod position;

ghost use Rattle.std.specs.Prelude.{◌≡◌};
ghost use Rattle.text.specs.Split.{split};
ghost use Rattle.log_line.specs.Answers.{order_of};
ghost use Rattle.log_step.specs.Answers.{ReadAs, JudgedBy, StepJudged};

use fields::Fields;
use log_line::header::ColumnOrder;
use log_line::preds::{Links, Preds, scan_preds};
use log_line::refusals::Refusal;
use numbers::number_at;
pub use position::Position;

// What a line says of its step: board and label set. The links stand beside it.
#[derive(Clone, Copy)]
pub struct StepValues {
    pub board: u16,
    pub labels: u16,
}

// The fields of a line by their columns.
#[derive(Clone, Copy)]
struct Row {
    vertex: u16,
    board: u16,
    labels: u16,
    preds: Preds,
}

// The line of step v, if it has four fields, three of them numbers, a board of at most 255, and `preds` of the form of links: else it is 21.
#[tactic(auto, using(crate::proofs::StepLaws::row_kit))]
fn read_row<const N: usize>(fields: &Fields<N>, order: ColumnOrder, v: u16) -> Option<Row>
    ensures { ReadAs v (order_of order) (split 32 fields.now.line.now) result }
{
    if fields.len() != 4 {
        return None;
    }
    let vertex = number_at(fields, order.vertex)?;
    let board = number_at(fields, order.board)?;
    let labels = number_at(fields, order.labels)?;
    if board > layout::MOST_BOARD {
        return None;
    }
    let preds = scan_preds(fields.field(order.preds), v)?;
    Some(Row {
        vertex,
        board,
        labels,
        preds,
    })
}

// The values of the step, or 24, 25, 26.
#[tactic(auto, using(crate::proofs::StepLaws::values_kit))]
fn judge_values(row: Row, position: Position) -> Result<(StepValues, Links), Refusal>
    ensures { JudgedBy row position.labels position.step position.links result }
{
    if row.preds.mislinked {
        return Err(Refusal::Links);
    }
    if position.is_mislabelled(row.labels) {
        return Err(Refusal::Labels);
    }
    if position.is_over(row.preds.links.count) {
        return Err(Refusal::Limit);
    }
    let values = StepValues {
        board: row.board,
        labels: row.labels,
    };
    Ok((values, row.preds.links))
}

// The line at this position. The line is split once; there is room for the four fields that it may have, and for where it ends.
#[tactic(auto, using(crate::proofs::StepLaws::step_kit))]
pub fn read_step(
    line: &[u8],
    order: ColumnOrder,
    position: Position,
) -> Result<(StepValues, Links), Refusal>
    ensures { StepJudged position.labels position.step position.links (order_of order) (split 32 line.now) result }
{
    let fields = Fields::<5>::split(line);
    let row = read_row(&fields, order, position.step).ok_or(Refusal::Malformed)?;
    if row.vertex != position.step {
        return Err(Refusal::Number);
    }
    judge_values(row, position)
}
