// The lines of a text: the header, then the rows, each stored as it passes.
#![tactic(auto)]

ghost use Rattle.std.specs.Prelude.{◌≡◌, [], ◌≤◌};
ghost use Rattle.layout.specs.Layout.{most_labels};
ghost use Rattle.pattern_line.specs.Line.{fields_of};
ghost use Rattle.pattern_store.specs.Buffer.{buffer_of};
ghost use Rattle.pattern_order.specs.inner.Answers.{line_said, rows_at};
ghost use Rattle.pattern_row.specs.inner.Answers.{row_judged, row_said};
ghost use Rattle.pattern_store.specs.inner.Store.{row_stored};
ghost use Rattle.pattern_walk.specs.Reading.{Begun, HeaderRead, FirstRead, RowsRead};

use pattern_header::read_header;
use pattern_line::refusals::Refusal;
use pattern_order::LineValues;
use pattern_row::read_row;
use pattern_store::store_row;
use text::faults::{Fault, in_line};
use text::lines::{has_bad_size, whole_line};

// The size, then the first line: how many labels the header names, and where the second line begins.
#[tactic(auto, using(crate::proofs::LinesLaws::first_kit))]
pub fn read_first(text: &[u8]) -> Result<(u16, usize), Fault<Refusal>>
    ensures { FirstRead text.now result }
{
    if has_bad_size(text, layout::MOST_PATTERN_TEXT) {
        return in_line(Err(Refusal::Size), 0);
    }
    let n = in_line(whole_line(text, layout::MOST_LINE, Refusal::Malformed), 1)?;
    let count = in_line(read_header(&text[..n]), 1)?;
    Ok((count, n + 1))
}

// What a line says after the line before; where it passes, it is stored.
#[tactic(auto, using(crate::proofs::JudgedLaws::take_kit))]
fn take_row(
    line: &[u8],
    labels: u16,
    last: Option<LineValues>,
    buffer: &mut [u16; layout::PATTERN_LENGTH],
) -> Result<LineValues, Refusal>
    requires { (labels ≤ most_labels) × Begun last }
    ensures result_value { result ≡ row_judged labels (rows_at last) (fields_of line.now) }
    ensures said { line_said result ≡ row_said labels (rows_at last) (fields_of line.now) }
    ensures buffer_after { buffer.new ≡ row_stored buffer.old result (fields_of line.now) }
{
    let mut next = [0; layout::MOST_LABELS];
    let values = read_row(line, labels, last, &mut next)?;
    store_row(buffer, values, &next);
    Ok(values)
}

// The lines from the second on, each stored as it passes. Before them the buffer holds the label count alone. The place goes on by a line's
// length, so no `for` counts it.
#[tactic(auto, using(crate::proofs::LinesLaws::rows_kit))]
pub fn read_rows(
    text: &[u8],
    start: usize,
    labels: u16,
    buffer: &mut [u16; layout::PATTERN_LENGTH],
) -> Result<(), Fault<Refusal>>
    requires { HeaderRead text.now labels start × (buffer.old ≡ buffer_of (record { labels = labels; rows = [] })) }
    ensures { RowsRead text.now result buffer.new }
{
    let mut last = None;
    let mut at = start;
    let mut line = 2;
    while at < text.len() {
        let n = in_line(
            whole_line(&text[at..], layout::MOST_LINE, Refusal::Malformed),
            line,
        )?;
        let end = at + n;
        let values = in_line(take_row(&text[at..end], labels, last, buffer), line)?;
        last = Some(values);
        at = end + 1;
        line += 1;
    }
    Ok(())
}
